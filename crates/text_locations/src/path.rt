//! The parts of a path, such as `steps[3].core`.
ghost use Rattle.std.specs.Prelude.{◌≡◌, ◌+◌, ◌∷◌, ◌<◌, [], drop, length, option_map, MatchOption};
ghost use Rattle.std.specs.List.{list_all, position_or_len};
ghost use Rattle.std.specs.Char.{is_ascii_digit};
ghost use Rattle.text_locations.specs.Path.{index_of, index_or_name, is_named, is_separator, itself, itself_or_lacking, next_item, next_member, next_parts, parts};
ghost use Rattle.text_locations.specs.Parts.{part_of, target_of};

/// A part of a path: a member by its name, or an item by its index.
#[derive(Clone, Copy)]
pub(crate) enum Part<'p> {
    Member(&'p [u8]),
    Item(u64),
}

impl<'p> Part<'p> {
    fn of_piece(piece: &'p [u8]) -> Part<'p>
        requires { 0 < length piece.now }
        ensures { part_of result ≡ index_or_name piece.now }
    {
        let last = piece.len() - 1;
        if piece[last] != b']' {
            return Part::Member(piece);
        }
        match index_of(&piece[..last]) {
            Some(index) => Part::Item(index),
            None => Part::Member(piece),
        }
    }
}

/// What is wanted of the value that comes next.
#[derive(Clone, Copy)]
pub(crate) enum Target<'p> {
    Nothing,
    /// The value itself.
    Whole,
    /// What a path leads to from it.
    Below(Part<'p>, &'p [u8]),
}

impl<'p> Target<'p> {
    pub(crate) fn of_path(path: Option<&'p [u8]>) -> Target<'p>
        ensures { target_of result ≡ option_map (λ path. parts path.now) path.entry }
    {
        let Some(path) = path else {
            return Target::Nothing;
        };
        match first_part(path) {
            Some((part, rest)) => Target::Below(part, rest),
            None => Target::Whole,
        }
    }

    /// The index of the item that is wanted.
    pub(crate) fn index(&self) -> Option<u64>
        ensures { result ≡ next_item (target_of self.now) }
    {
        match self {
            Target::Below(Part::Item(index), _) => Some(*index),
            _ => None,
        }
    }

    /// The name of the member that is wanted.
    pub(crate) fn name(&self) -> Option<&'p [u8]>
        ensures { option_map (λ name. name.now) result ≡ next_member (target_of self.now) }
    {
        match self {
            Target::Below(Part::Member(name), _) => Some(name),
            _ => None,
        }
    }

    /// The path from there on.
    pub(crate) fn rest(&self) -> &'p [u8]
        ensures { parts result.now ≡ next_parts (target_of self.now) }
    {
        match self {
            Target::Below(_, rest) => rest,
            _ => &[],
        }
    }

    /// The index of the value's token, where the value itself is wanted.
    pub(crate) fn itself(&self, at: usize) -> Option<usize>
        ensures { result ≡ itself (target_of self.now) at }
    {
        match self {
            Target::Whole => Some(at),
            _ => None,
        }
    }

    /// The same where an object lacks the member that is wanted.
    pub(crate) fn itself_or_lacking(&self, at: usize) -> Option<usize>
        ensures { result ≡ itself_or_lacking (target_of self.now) at }
    {
        match self {
            Target::Whole | Target::Below(Part::Member(_), _) => Some(at),
            _ => None,
        }
    }
}

/// Whether that name is wanted.
pub(crate) fn is_named(name: Option<&[u8]>, key: &str) -> bool
    ensures { result ≡ is_named (option_map (λ name. name.now) name.entry) key.now }
{
    match name {
        Some(name) => key.as_bytes() == name,
        None => false,
    }
}

/// The first part of a path, and the path from there on.
pub(crate) fn first_part<'p>(path: &'p [u8]) -> Option<(Part<'p>, &'p [u8])>
    ensures { MatchOption result (parts path.now ≡ [])
        (λ first. parts path.now ≡ part_of first.0 ∷ parts first.1.now) }
{
    let mut rest = path;
    while !rest.is_empty() {
        let end = piece_len(rest);
        let piece = &rest[..end];
        rest = after_piece(rest, end);
        if end > 0 {
            return Some((Part::of_piece(piece), rest));
        }
    }
    None
}

fn piece_len(path: &[u8]) -> usize
    ensures { result ≡ position_or_len is_separator path.now }
{
    let mut len = 0;
    while len < path.len() && path[len] != b'.' && path[len] != b'[' {
        len += 1;
    }
    len
}

// The path after a piece of that length, and after the separator that ends it.
fn after_piece(path: &[u8], len: usize) -> &[u8]
    ensures { result.now ≡ drop (len + 1) path.now }
{
    if len < path.len() {
        &path[len + 1..]
    } else {
        &[]
    }
}

fn index_of(digits: &[u8]) -> Option<u64>
    ensures { result ≡ index_of digits.now }
{
    if !are_digits(digits) {
        return None;
    }
    match fast_float::parse_u64(digits) {
        Ok(index) => Some(index),
        Err(_) => None,
    }
}

fn are_digits(bytes: &[u8]) -> bool
    ensures { result ≡ list_all is_ascii_digit bytes.now }
{
    for byte in bytes {
        if !byte.is_ascii_digit() {
            return false;
        }
    }
    true
}
