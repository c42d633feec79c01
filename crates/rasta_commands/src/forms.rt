//! What the program is asked for.
ghost use Rattle.std.specs.Prelude.{◌≡◌};
ghost use Rattle.rasta_commands.specs.Forms.{capture_path, certificate_path, parameters_path};

/// What the program is asked for, with the paths of its files.
#[derive(Clone, Copy, Debug)]
pub enum Form<'a> {
    Show {
        capture: &'a str,
        params: &'a str,
    },
    Build {
        capture: &'a str,
        params: &'a str,
    },
    Check {
        capture: &'a str,
        params: &'a str,
        certificate: &'a str,
    },
    Audit {
        capture: &'a str,
        params: &'a str,
    },
}

impl<'a> Form<'a> {
    /// The path of the capture.
    pub fn capture(&self) -> &'a str
        ensures { result.now ≡ capture_path self.now }
    {
        match self {
            Form::Show { capture, .. }
            | Form::Build { capture, .. }
            | Form::Check { capture, .. }
            | Form::Audit { capture, .. } => capture,
        }
    }

    /// The path of the parameter file.
    pub fn params(&self) -> &'a str
        ensures { result.now ≡ parameters_path self.now }
    {
        match self {
            Form::Show { params, .. }
            | Form::Build { params, .. }
            | Form::Check { params, .. }
            | Form::Audit { params, .. } => params,
        }
    }

    /// The path of the certificate, empty where the form names none.
    pub fn certificate(&self) -> &'a str
        ensures { result.now ≡ certificate_path self.now }
    {
        match self {
            Form::Check { certificate, .. } => certificate,
            Form::Show { .. } | Form::Build { .. } | Form::Audit { .. } => "",
        }
    }
}
