//! The twelve character classes of the C locale (XBD 7.3.1).
ghost use Rattle.std.specs.Prelude.{◌≡◌, find, nat_eq};
ghost use Rattle.std.specs.Cmp.Lexicographic.{pointwise};
ghost use Rattle.ps_lines.specs.Classes.{class_name};

/// A character class.
#[derive(Clone, Copy, Debug, PartialEq, Eq)]
pub enum Class {
    Alnum,
    Alpha,
    Blank,
    Cntrl,
    Digit,
    Graph,
    Lower,
    Print,
    Punct,
    Space,
    Upper,
    Xdigit,
}

impl Class {
    ghost use Rattle.std.specs.Prelude.{◌≡◌};
    ghost use Rattle.ps_lines.specs.Classes.{class_has, class_name, class_named};

    /// All of them, in the order of their names.
    pub const ALL: [Class; 12] = [
        Class::Alnum,
        Class::Alpha,
        Class::Blank,
        Class::Cntrl,
        Class::Digit,
        Class::Graph,
        Class::Lower,
        Class::Print,
        Class::Punct,
        Class::Space,
        Class::Upper,
        Class::Xdigit,
    ];

    /// Whether the byte is of the class.
    #[inline]
    pub fn has(self, byte: u8) -> bool
        ensures { result ≡ class_has self byte }
    {
        match self {
            Class::Alnum => byte.is_ascii_alphanumeric(),
            Class::Alpha => byte.is_ascii_alphabetic(),
            Class::Blank => byte == b' ' || byte == b'\t',
            Class::Cntrl => byte.is_ascii_control(),
            Class::Digit => byte.is_ascii_digit(),
            Class::Graph => byte.is_ascii_graphic(),
            Class::Lower => byte.is_ascii_lowercase(),
            Class::Print => byte == b' ' || byte.is_ascii_graphic(),
            Class::Punct => byte.is_ascii_punctuation(),
            Class::Space => byte == b' ' || (b'\t' <= byte && byte <= b'\r'),
            Class::Upper => byte.is_ascii_uppercase(),
            Class::Xdigit => byte.is_ascii_hexdigit(),
        }
    }

    /// The name, as it stands between `[:` and `:]` (XBD 9.3.5).
    pub fn name(self) -> &'static [u8]
        ensures { result.now ≡ class_name self }
    {
        match self {
            Class::Alnum => b"alnum",
            Class::Alpha => b"alpha",
            Class::Blank => b"blank",
            Class::Cntrl => b"cntrl",
            Class::Digit => b"digit",
            Class::Graph => b"graph",
            Class::Lower => b"lower",
            Class::Print => b"print",
            Class::Punct => b"punct",
            Class::Space => b"space",
            Class::Upper => b"upper",
            Class::Xdigit => b"xdigit",
        }
    }

    /// The class of this name, if one has it.
    #[tactic(auto, unfolding(crate::specs::Classes::class_named))]
    pub fn named(name: &[u8]) -> Option<Class>
        ensures { result ≡ class_named name.now }
    {
        class_among(&Class::ALL, name)
    }
}

/// The first of the classes that has the name.
fn class_among(classes: &[Class], name: &[u8]) -> Option<Class>
    ensures { result ≡ find (λ class. pointwise nat_eq (class_name class) name.now) classes.now }
{
    for class in classes {
        if class.name() == name {
            return Some(*class);
        }
    }
    None
}
