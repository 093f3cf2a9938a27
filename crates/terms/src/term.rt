use super::sets::Set;

// A term (monomial), a set of free wires, with its coefficient. By default it is a record that holds nothing yet: no term of a form has the
// coefficient 0.
#[derive(Clone, Copy, Debug, Default, PartialEq, Eq)]
pub struct Term {
    pub set: Set,
    pub coefficient: i64,
}
