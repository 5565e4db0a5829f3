//! The table: for each case a byte for what it is (`b` a book, `s` a slip), the length of its label
//! in one byte and of its content in three, then label and content.

ghost use Rattle.std.specs.Prelude.{◌<◌, length, IfSome};

/// What a case is.
#[derive(Clone, Copy, Debug, PartialEq, Eq)]
pub(crate) enum CaseKind {
    Book,
    Slip,
}

/// A case of the table.
#[derive(Clone, Copy)]
pub(crate) struct Case<'a> {
    pub(crate) kind: CaseKind,
    pub(crate) label: &'a [u8],
    pub(crate) content: &'a [u8],
}

/// The first case, and what follows it; none where the table ends.
pub(crate) fn split_case(table: &[u8]) -> Option<(Case<'_>, &[u8])>
    ensures { IfSome result (λ p. length p.1.now < length table.now) }
{
    let (head, rest) = table.split_first_chunk::<5>()?;
    let [kind, label_len, high, middle, low] = *head;
    let (label, rest) = rest.split_at_checked(usize::from(label_len))?;
    let content_len = u32::from_be_bytes([0, high, middle, low]) as usize;
    let (content, rest) = rest.split_at_checked(content_len)?;
    let kind = if kind == b's' {
        CaseKind::Slip
    } else {
        CaseKind::Book
    };
    Some((
        Case {
            kind,
            label,
            content,
        },
        rest,
    ))
}
