use super::sets::Set;
use super::term::Term;

// `factor` times each term of a form, joined with a set.
#[derive(Clone, Copy)]
pub(super) struct Multiple<'a> {
    pub(super) set: &'a Set,
    pub(super) factor: i64,
    pub(super) form: &'a [Term],
}

// `factor` times the product of two forms.
#[derive(Clone, Copy)]
pub(super) struct Product<'a> {
    pub(super) factor: i64,
    pub(super) one: &'a [Term],
    pub(super) other: &'a [Term],
}
