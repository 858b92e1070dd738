// What stands in a SELECT where its scope doesn't allow it.

/// What is named where it can't be: a variable by its number, or all of them.
#[derive(Clone, Copy)]
pub enum Unscoped {
    Star,
    Variable(usize),
}
