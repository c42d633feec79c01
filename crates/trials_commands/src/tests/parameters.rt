//! Parameter files that are refused, and those that a draft keeps.
use super::made::{Broken, NO_RECORD, Refused, one_request, told};
use rasta_pcap::devices::Pieces;
use seatmelon_commands::{Draft, survey_of, whole_of, with_params};
use seatmelon_failures::{InputFailure, judge_certificate, params_in};
use std::alloc::Global;
use std::process::Abort;

// Parameter files, and what is said of them.
const REFUSED_PARAMETERS: [Refused; 13] = [
    Refused {
        file: b"",
        text: "p: client_id is missing; it must be a whole number from 0 to 4294967295 (51 MissingKey)",
    },
    Refused {
        file: b"client_id = 96\nserver_id = 96\n",
        text: "p: line 2: server_id must be a whole number from 0 to 4294967295, and not client_id (52 BadValue)",
    },
    Refused {
        file: b"# lengths\n  \"code_length\" = 12\nserver_id = 97\nclient_id = 96\n",
        text: "p: line 2: code_length must be 0, 8 or 16 (52 BadValue)",
    },
    Refused {
        file: b"client_id = 96\nserver_id = 97\ncode_length = 0\ncheck_length = 0\nn_sendmax = 20\n\
            [[channel]]\nt_max = 1800\n",
        text: "p: line 7: t_max stands in a table; it must stand before the first one (51 MissingKey)",
    },
    Refused {
        file: b"client_id = 96\nserver_id = 97\ncode_length = 0\ncheck_length = 0\nn_sendmax = 20\nt_max = 1800\n\
            slack = 0\n[[channel]]\nclient = \"10.0.0.1:5000\"\n",
        text: "p: line 8: channel must be one to four tables with only client and server, each a text \
               \"a.b.c.d:port\", no direction twice (51 MissingKey)",
    },
    Refused {
        file: b"slack = 0\ntmax = 1\nclient_id = 96\nserver_id = 97\ncode_length = 0\ncheck_length = 0\n\
            n_sendmax = 20\nt_max = 1800\n[[channel]]\nclient = \"10.0.0.1:5000\"\nserver = \"10.0.0.2:5000\"\n",
        text: "p: line 2: a parameter file has no key tmax; did you mean t_max? (52 BadValue)",
    },
    Refused {
        file: b"slack = 0\nclient_id = 96\nserver_id = 97\ncode_length = 0\ncheck_length = 0\n\
            n_sendmax = 20\nt_max = 1800\n[[channel]]\nclient = \"10.0.0.1:5000\"\nserver = \"10.0.0.2:5000\"\n[more]\n",
        text: "p: line 11: a parameter file has no key more (52 BadValue)",
    },
    Refused {
        file: b"slack = 0\nclient_id = 96\nserver_id = 97\ncode_length = 0\ncheck_length = 0\n\
            n_sendmax = 20\nt_max = 1800\nquiet.client = { next_sn = 5, clock = 5 }\n\
            [[channel]]\nclient = \"10.0.0.1:5000\"\nserver = \"10.0.0.2:5000\"\n",
        text: "p: line 8: quiet must be a table with only client and server, each with next_sn, clock and, \
               if any, deadline and handed_ts (51 MissingKey)",
    },
    Refused {
        file: b"client_id = 96\nserver_id 97\n",
        text: "p: line 2: this is no TOML document: key with no value, expected `=` (50 Toml)",
    },
    Refused {
        file: NO_RECORD,
        text: "p: line 1: this is no TOML document: invalid UTF-8 (50 Toml)\n\
               this looks like a capture, where a parameter file is wanted: CAPTURE stands first, then PARAMS",
    },
    Refused {
        file: b"client_id = 96\nserver_id = 97\ncode_length = 0\ncheck_length = 0\nn_sendmax = 20\nt_max = 1800\n\
            slack = 0\n[[channel]]\nclient = \"10.0.0.1:5000\"\nserver = \"10.0.0.2:5000\"\nlast_record = 7\n",
        text: "p: line 11: last_record stands in a table; it must stand before the first one (52 BadValue)",
    },
    Refused {
        file: b"client_id = 96\nserver_id = 97\ncode_length = 0\ncheck_length = 0\nn_sendmax = 20\nt_max = 1800\n\
            slack = 0\n[quiet.client]\nnext_sn = 5\nclock = 5\n[quiet.server]\nnext_sn = 5\nclock = 5\n\
            first_record = 3\n[[channel]]\nclient = \"10.0.0.1:5000\"\nserver = \"10.0.0.2:5000\"\n",
        text: "p: line 14: first_record stands in a table; it must stand before the first one (52 BadValue)",
    },
    Refused {
        file: b"start_words = \"00\"\nclient_id = 96\nserver_id = 97\ncode_length = 0\ncheck_length = 0\n\
            n_sendmax = 20\nt_max = 1800\nslack = 0\n\
            [[channel]]\nclient = \"10.0.0.1:5000\"\nserver = \"10.0.0.2:5000\"\n",
        text: "p: line 1: a parameter file has no key start_words; did you mean md4_start? (52 BadValue)",
    },
];

// The same of files that a folder holds.
const REFUSED_IN_FOLDERS: [Refused; 3] = [
    Refused {
        file: b"[package]\nname = \"watch\"\n",
        text: "p: client_id is missing; it must be a whole number from 0 to 4294967295 (51 MissingKey)\n\
               line 1: a parameter file has no key package\n\
               this doesn't look like a parameter file; to leave it out, name the others in place of the folder, \
               or move it, or rename it so that its name doesn't end in .toml",
    },
    Refused {
        file: b"[toolchain]\nchannel = \"stable\"\n",
        text: "p: client_id is missing; it must be a whole number from 0 to 4294967295 (51 MissingKey)\n\
               line 1: a parameter file has no key toolchain\n\
               this doesn't look like a parameter file; to leave it out, name the others in place of the folder, \
               or move it, or rename it so that its name doesn't end in .toml",
    },
    Refused {
        file: b"client_id = 96\nserver_id = 96\n",
        text: "p: line 2: server_id must be a whole number from 0 to 4294967295, and not client_id (52 BadValue)",
    },
];

// Texts in place of a certificate, and what is said of them; nothing of those that are judged with the capture.
const NO_CERTIFICATES: [Refused; 5] = [
    Refused {
        file: PARAMETERS,
        text: "2 p: this looks like a parameter file, where a certificate is wanted: audit takes several parameter files",
    },
    Refused {
        file: b"client_id = 96\nserver_id 97\nt_max = 5\n# the line at the wharf: \xc3\xa4\n",
        text: "2 p: this looks like a parameter file, where a certificate is wanted: audit takes several parameter files",
    },
    Refused {
        file: NO_RECORD,
        text: "2 p: this looks like a capture, where a certificate is wanted",
    },
    Refused {
        file: b"rasta-certificate 1\nclient\nmake 0 1000 open\nserver\nend\n",
        text: "",
    },
    Refused {
        file: b"",
        text: "",
    },
];

// Whether these parameters are refused so.
fn is_refused_so(alloc: Global, refused: &Refused) -> Option<bool> {
    let failure = InputFailure::from(params_in(alloc, "p", refused.file).err()?);
    let text = failure.to_string(alloc).ok()?;
    Some(text.as_str() == refused.text && failure.status() == 2)
}

#[test]
fn refused_parameters(rt: HostRuntime) {
    for refused in &REFUSED_PARAMETERS {
        assert_eq!(rt;
            is_refused_so(rt.alloc(), refused),
            Some(true),
            "{}",
            refused.text
        );
    }
}

// Whether these parameters, which a folder holds, are refused so.
fn is_refused_in_folder(alloc: Global, refused: &Refused) -> Option<bool> {
    let failure = InputFailure::from(params_in(alloc, "p", refused.file).err()?).of_folder();
    let text = failure.to_string(alloc).ok()?;
    Some(text.as_str() == refused.text && failure.status() == 2)
}

#[test]
fn refused_files_of_folders(rt: HostRuntime) {
    for refused in &REFUSED_IN_FOLDERS {
        assert_eq!(rt;
            is_refused_in_folder(rt.alloc(), refused),
            Some(true),
            "{}",
            refused.text
        );
    }
}

// Whether this is said of a text in place of a certificate.
fn is_no_certificate(alloc: Global, refused: &Refused) -> Option<bool> {
    match judge_certificate(alloc, "p", refused.file) {
        Ok(()) => Some(refused.text.is_empty()),
        Err(failure) => Some(told(alloc, failure)?.as_str() == refused.text),
    }
}

#[test]
fn files_in_place_of_a_certificate(rt: HostRuntime) {
    for refused in &NO_CERTIFICATES {
        assert_eq!(rt;
            is_no_certificate(rt.alloc(), refused),
            Some(true),
            "{}",
            refused.text
        );
    }
}

// Whether a file is read whole as these bytes.
fn is_read_whole(alloc: Global, bytes: &[u8]) -> Option<bool> {
    let read = whole_of(alloc, "p", Pieces::new(bytes, 5)).ok()?;
    Some(read.as_slice() == bytes)
}

// Whether a file can't be read, for this reason.
fn is_unread(alloc: Global, text: &str) -> Option<bool> {
    let failure = whole_of(alloc, "p", Broken { number: 5 }).err()?;
    Some(failure.to_string(alloc).ok()?.as_str() == text)
}

#[test]
fn files_that_are_read_whole(rt: HostRuntime) {
    assert_eq!(rt; is_read_whole(rt.alloc(), NO_RECORD), Some(true));
    assert_eq!(rt; is_unread(rt.alloc(), "p: Input/output error"), Some(true));
}

/// Parameters by which the client of the request opens the connection.
pub const PARAMETERS: &[u8] =
    b"client_id = 96\nserver_id = 97\ncode_length = 0\ncheck_length = 0\nn_sendmax = 20\n\
    t_max = 1800\nslack = 0\n[[channel]]\nclient = \"10.0.0.1:5000\"\nserver = \"10.0.0.2:5000\"\n";

/// The same, of another server.
pub const OTHER_PARAMETERS: &[u8] =
    b"client_id = 96\nserver_id = 98\ncode_length = 0\ncheck_length = 0\nn_sendmax = 20\n\
    t_max = 1800\nslack = 0\n[[channel]]\nclient = \"10.0.0.1:5000\"\nserver = \"10.0.0.2:5000\"\n";

// Why these parameters aren't kept in the draft of the one request, behind the status; nothing where they are.
fn unkept_text(alloc: Global, parameters: &[u8]) -> Option<String> {
    let request = one_request(alloc)?;
    let survey = survey_of(alloc, "c", request.as_slice(), None).ok()?;
    let params = params_in(alloc, "p", parameters).ok()?;
    let draft = Draft {
        connection: survey.connections().first()?,
        fault: None,
        format: survey.format(),
        kept: None,
    };
    match with_params(alloc, "p", 1, draft, &params) {
        Ok(_) => String::from_str(alloc, "").ok(),
        Err(failure) => told(alloc, failure),
    }
}

// Whether these parameters are kept, or this is said of them.
fn are_kept_or_told(alloc: Global, parameters: &[u8], text: &str) -> Option<bool> {
    Some(unkept_text(alloc, parameters)?.as_str() == text)
}

#[test]
fn parameters_of_other_ids_are_not_kept(rt: HostRuntime) {
    let alloc = rt.alloc();
    assert_eq!(rt; are_kept_or_told(alloc, PARAMETERS, ""), Some(true));
    let text = "2 p: client_id and server_id are not those of connection 1";
    assert_eq!(rt; are_kept_or_told(alloc, OTHER_PARAMETERS, text), Some(true));
}
