//! Words that have the digits of a sequence. Written by tools/table.

/// What stands ahead of the first number and of the others, where a list that ends in this byte has a place or a true colour in front; and
/// the list from these numbers on.
pub(crate) fn words_of(list: &[u8], control: u8) -> Option<(&'static str, &'static str, &[u8])> {
    match (control, list) {
        (b'H', _) => Some(("CUP  cursor to line ", ", column ", list)),
        (b'f', _) => Some(("HVP  cursor to line ", ", column ", list)),
        (b'm', [first, second, b';', b'2', b';', parts @ ..]) => {
            let words = match [*first, *second] {
                [b'3', b'8'] => "SGR  foreground rgb ",
                [b'4', b'8'] => "SGR  background rgb ",
                [b'5', b'8'] => "SGR  underline colour rgb ",
                _ => return None,
            };
            Some((words, ",", parts))
        }
        _ => None,
    }
}
