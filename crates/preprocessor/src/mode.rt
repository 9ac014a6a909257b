//! What a byte of a text is: within a comment, a TEXT or a name, the start of a reference or of a
//! word, or none of these.

ghost use Rattle.std.specs.Prelude.{◌≡◌, ◌+◌, ◌<◌, ◌≤◌, ◌^◌};
ghost use Rattle.preprocessor.specs.Modes.{after, at_branch, begins_word, beside, closes, in_condition, in_name, in_number, inner, is_digit, is_letter, is_name_byte, next_byte, opens, plain, shifted, within};

/// What the bytes before have opened, which says what the next byte is.
#[derive(Clone, Copy)]
pub struct Mode {
    /// `&` begins words.
    pub directives: bool,
    /// Within a condition.
    pub condition: bool,
    /// At the word that ends a part which was not chosen.
    pub branch: bool,
    /// The quotation mark of the TEXT that is open; 0 where none is.
    pub quote: u8,
    /// How many comments are open.
    pub comments: u32,
    /// The next byte is copied, whatever it is.
    pub passed: bool,
    /// The byte before belongs to a name.
    pub name: bool,
    /// The byte before is a digit that belongs to no name.
    pub number: bool,
}

impl Mode {
    /// At the start of a text.
    pub fn plain() -> Mode
        ensures { result ≡ plain }
    {
        Mode {
            directives: true,
            condition: false,
            branch: false,
            quote: 0,
            comments: 0,
            passed: false,
            name: false,
            number: false,
        }
    }

    /// At the start of a reference's inside or of a definition's line, where `&` begins no word.
    pub fn inner() -> Mode
        ensures { result ≡ inner }
    {
        Mode {
            directives: false,
            ..Mode::plain()
        }
    }

    /// In a reference, in a TEXT with this quotation mark, or in none where it is 0.
    pub fn within(quote: u8) -> Mode
        ensures { result ≡ within quote }
    {
        Mode {
            quote,
            ..Mode::inner()
        }
    }

    /// At the start of a condition.
    pub fn in_condition() -> Mode
        ensures { result ≡ in_condition }
    {
        Mode {
            condition: true,
            ..Mode::plain()
        }
    }

    /// At the word that ends a part which was not chosen.
    pub fn at_branch() -> Mode
        ensures { result ≡ at_branch }
    {
        Mode {
            branch: true,
            ..Mode::plain()
        }
    }

    /// Says whether the byte opens a reference.
    pub fn opens(self, byte: u8) -> bool
        ensures { result ≡ opens self byte }
    {
        if self.passed || self.comments > 0 {
            false
        } else {
            byte == b'{'
        }
    }

    /// Says whether the byte closes a reference.
    pub fn closes(self, byte: u8) -> bool
        ensures { result ≡ closes self byte }
    {
        if self.passed || self.comments > 0 {
            false
        } else {
            byte == b'}'
        }
    }

    /// Says whether the byte begins a word.
    pub fn begins_word(self, byte: u8) -> bool
        ensures { result ≡ begins_word self byte }
    {
        if self.passed || self.comments > 0 {
            false
        } else if self.name || self.quote > 0 {
            false
        } else if self.directives {
            byte == b'&'
        } else {
            false
        }
    }

    // What the byte opens and closes.
    fn shifted(self, byte: u8, next: u8) -> Mode
        requires { self.comments < 2 ^ 31 }
        ensures is { result ≡ shifted self byte next }
        ensures grown { result.comments ≤ self.comments + 1 }
    {
        let mut mode = self;
        if self.passed {
            mode.passed = false;
        } else if self.comments > 0 {
            if byte == b'/' && next == b'*' {
                mode.comments = self.comments + 1;
                mode.passed = true;
            } else if byte == b'*' && next == b'/' {
                mode.comments = self.comments - 1;
                mode.passed = true;
            }
        } else if self.quote > 0 {
            if byte == b'~' {
                mode.passed = true;
            } else if byte == self.quote {
                mode.quote = 0;
            }
        } else if byte == b'~' {
            mode.passed = next == b'{' || next == b'}';
        } else if byte == b'/' && next == b'*' {
            mode.comments = 1;
            mode.passed = true;
        } else if byte == b'"' || byte == b'\'' {
            mode.quote = byte;
        }
        mode
    }

    fn in_name(self, byte: u8) -> bool
        ensures { result ≡ in_name self byte }
    {
        if self.name {
            is_name_byte(byte)
        } else {
            is_letter(byte)
        }
    }

    fn in_number(self, byte: u8) -> bool
        ensures { result ≡ in_number self byte }
    {
        if self.name { false } else { is_digit(byte) }
    }

    /// The mode after a byte that is copied, where `next` is the byte after it, or 0 at the end.
    pub fn after(self, byte: u8, next: u8) -> Mode
        requires { self.comments < 2 ^ 31 }
        ensures is { result ≡ after self byte next }
        ensures grown { result.comments ≤ self.comments + 1 }
    {
        let mut mode = self.shifted(byte, next);
        mode.name = self.in_name(byte);
        mode.number = self.in_number(byte);
        mode
    }

    /// The mode after a reference.
    pub fn beside(self) -> Mode
        ensures { result ≡ beside self }
    {
        Mode {
            name: false,
            number: false,
            ..self
        }
    }
}

/// The byte that these bytes begin with, or 0.
pub fn next_byte(bytes: &[u8]) -> u8
    ensures { result ≡ next_byte bytes.now }
{
    match bytes {
        [first, ..] => *first,
        _ => 0,
    }
}

/// Says whether the byte is a letter.
pub fn is_letter(byte: u8) -> bool
    ensures { result ≡ is_letter byte }
{
    (byte >= b'A' && byte <= b'Z') || (byte >= b'a' && byte <= b'z')
}

/// Says whether the byte is a digit.
pub fn is_digit(byte: u8) -> bool
    ensures { result ≡ is_digit byte }
{
    byte >= b'0' && byte <= b'9'
}

/// Says whether the byte may follow the first letter of a name: a letter, a digit or one of
/// `# $ % & - _`.
pub fn is_name_byte(byte: u8) -> bool
    ensures { result ≡ is_name_byte byte }
{
    if is_letter(byte) {
        true
    } else if is_digit(byte) {
        true
    } else if byte >= b'#' && byte <= b'&' {
        true
    } else {
        byte == b'-' || byte == b'_'
    }
}
