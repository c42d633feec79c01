//! The commands of the program `seatmelon`, over any files and devices: surveys, drafts, explanations and conversions.
#![tactic(auto)]

mod answer;
mod converting;
mod drafting;
mod explaining;
mod explanation;
mod opening;
mod output;
mod progress;
mod reading;
mod showing;
mod surveying;
mod watched;

pub use answer::{Answer, Draft, write_answer};
pub use converting::{
    Conversion, CookedTold, FramesTold, conversion_of, convert, convert_file, convert_of,
    convert_to_ethernet, status_of_format,
};
pub use drafting::{After, Drafting, draft_file, draft_in, tell_fault, with_params};
pub use explaining::{
    Explaining, Explanation, Inputs, advise, explain_files, explain_of, status_of_outcome,
};
pub use explanation::{Form, explain};
pub use opening::{CaptureInput, open_capture, open_told};
pub use output::{Output, finish, output_to};
pub use progress::Progress;
pub use reading::{whole_file, whole_of};
pub use seatmelon_account::{Extent, Names, Outcome, Selection, Texts};
pub use showing::{Showing, show_file, show_of, status_of_listing};
pub use surveying::{
    SurveyForm, Surveying, status_of_survey, survey_at, survey_file, survey_of, write_survey,
};
pub use watched::Watched;
