// What is still to be printed.
use fly::call::Answer;
use script::script::Step;
use std::slice;

/// The steps of a script and the answers of its calls, from some place on. Not every step is a call, so that the two do not go in pairs.
#[derive(Drop)]
pub struct Report<'a> {
    pub(crate) steps: slice::Iter<'a, Step>,
    pub(crate) answers: slice::Iter<'a, Answer>,
}
