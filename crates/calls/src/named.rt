//! Calls by their names.

/// The call of a name, of a table of names and calls.
pub fn named<C: Copy>(table: &[(&str, C)], name: &str) -> Option<C> {
    for (known, call) in table {
        if *known == name {
            return Some(*call);
        }
    }
    None
}
