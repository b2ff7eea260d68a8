// A script.
use crate::line::CardKind;
use fly::call::Call;
use reader::fault::SheetFault;

/// What becomes of a line of a script, or of a sheet with its lines.
#[derive(Clone, Copy)]
pub enum Step {
    /// The next of the script's calls is made.
    Made,
    /// The text of a sheet is refused, so that no call is made.
    Unread(SheetFault),
}

/// The calls in their order; and the steps in theirs, each one a call or a sheet that is refused. The calls stand apart, since `fly` takes them as one list.
#[derive(Drop)]
pub struct Script {
    pub card: CardKind,
    pub calls: Vec<Call>,
    pub steps: Vec<Step>,
}
