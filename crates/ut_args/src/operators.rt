//! The operators of `test` (XCU test), as words spell them.

ghost use Rattle.std.specs.Prelude.{◌≡◌, Some, None};
ghost use Rattle.ut_args.specs.Operators.{binary_of, is_not, relation_of, unary_of};

/// What is asked of the place that a path names.
#[derive(Clone, Copy, Debug, PartialEq, Eq)]
pub enum Asked {
    /// `-e`: something is there.
    Exists,
    /// `-f`: a file is there.
    IsFile,
    /// `-d`: a directory is there.
    IsDir,
}

/// An operator before one operand.
#[derive(Clone, Copy, Debug, PartialEq, Eq)]
pub enum Unary {
    /// `!`: the operand is empty.
    Not,
    /// `-n`: the operand has a byte.
    HasBytes,
    /// `-z`: the operand is empty.
    IsEmpty,
    /// The operand is a path.
    At(Asked),
}

/// How two numbers are compared.
#[derive(Clone, Copy, Debug, PartialEq, Eq)]
pub enum Relation {
    /// `-eq`
    Equal,
    /// `-ne`
    NotEqual,
    /// `-gt`
    Greater,
    /// `-ge`
    GreaterOrEqual,
    /// `-lt`
    Less,
    /// `-le`
    LessOrEqual,
}

/// An operator between two operands.
#[derive(Clone, Copy, Debug, PartialEq, Eq)]
pub enum Binary {
    /// `=`: the operands are the same bytes.
    Same,
    /// `!=`: they aren't.
    Differ,
    /// The operands are numbers.
    Compare(Relation),
}

/// Whether the word is `!`.
pub fn is_not(word: &[u8]) -> bool
    ensures { result ≡ is_not word.now }
{
    word == b"!".as_slice()
}

/// The operator before one operand that a word spells.
#[tactic(auto, unfolding(crate::specs::Operators::unary_of))]
pub fn unary_of(word: &[u8]) -> Option<Unary>
    ensures { result ≡ unary_of word.now }
{
    if is_not(word) {
        return Some(Unary::Not);
    }
    if word == b"-n".as_slice() {
        return Some(Unary::HasBytes);
    }
    if word == b"-z".as_slice() {
        return Some(Unary::IsEmpty);
    }
    if word == b"-e".as_slice() {
        return Some(Unary::At(Asked::Exists));
    }
    if word == b"-f".as_slice() {
        return Some(Unary::At(Asked::IsFile));
    }
    if word == b"-d".as_slice() {
        return Some(Unary::At(Asked::IsDir));
    }
    None
}

/// The operator between two operands that a word spells.
#[tactic(auto, unfolding(crate::specs::Operators::binary_of))]
pub fn binary_of(word: &[u8]) -> Option<Binary>
    ensures { result ≡ binary_of word.now }
{
    if word == b"=".as_slice() {
        return Some(Binary::Same);
    }
    if word == b"!=".as_slice() {
        return Some(Binary::Differ);
    }
    relation_of(word).map(Binary::Compare)
}

/// The comparison of numbers that a word spells.
fn relation_of(word: &[u8]) -> Option<Relation>
    ensures { result ≡ relation_of word.now }
{
    if word == b"-eq".as_slice() {
        return Some(Relation::Equal);
    }
    if word == b"-ne".as_slice() {
        return Some(Relation::NotEqual);
    }
    if word == b"-gt".as_slice() {
        return Some(Relation::Greater);
    }
    if word == b"-ge".as_slice() {
        return Some(Relation::GreaterOrEqual);
    }
    if word == b"-lt".as_slice() {
        return Some(Relation::Less);
    }
    if word == b"-le".as_slice() {
        return Some(Relation::LessOrEqual);
    }
    None
}
