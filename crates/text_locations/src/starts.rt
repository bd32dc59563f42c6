//! Where the tokens of a text begin.
ghost use Rattle.std.specs.Prelude.{◌≡◌, ◌<◌, length, IfSome};
ghost use Rattle.json.specs.Word.{is_operator, is_space};
ghost use Rattle.text_locations.specs.Starts.{begins_token, is_mark, mode_after, token_start};

/// Where in a text a byte stands: between tokens, in a number or a word, in a string, or after a
/// backslash in one.
#[derive(Clone, Copy, Debug, PartialEq, Eq)]
enum Mode {
    Between,
    InWord,
    InString,
    InEscape,
}

impl Mode {
    fn after(self, byte: u8) -> Mode
        ensures { result ≡ mode_after self byte }
    {
        match self {
            Mode::Between if byte == b'"' => Mode::InString,
            Mode::Between | Mode::InWord => after_word(byte),
            Mode::InString if byte == b'"' => Mode::Between,
            Mode::InString if byte == b'\\' => Mode::InEscape,
            Mode::InString | Mode::InEscape => Mode::InString,
        }
    }

    fn begins_token(self, byte: u8) -> bool
        ensures { result ≡ begins_token self byte }
    {
        match self {
            Mode::Between => !(is_mark(byte) || is_space(byte)),
            Mode::InWord => is_operator(byte) && !is_mark(byte),
            Mode::InString | Mode::InEscape => false,
        }
    }
}

// The mode after a byte of a word, or one that ends it.
fn after_word(byte: u8) -> Mode
    ensures { result ≡ mode_after Mode.InWord byte }
{
    if is_operator(byte) || is_space(byte) {
        Mode::Between
    } else {
        Mode::InWord
    }
}

fn is_operator(byte: u8) -> bool
    ensures { result ≡ is_operator byte }
{
    matches!(byte, b'{' | b'}' | b'[' | b']' | b':' | b',')
}

fn is_mark(byte: u8) -> bool
    ensures { result ≡ is_mark byte }
{
    byte == b',' || byte == b':'
}

fn is_space(byte: u8) -> bool
    ensures { result ≡ is_space byte }
{
    matches!(byte, b' ' | b'\t' | b'\n' | b'\r')
}

/// The offset at which the token begins that has that index.
pub(crate) fn token_start(text: &[u8], index: usize) -> Option<usize>
    ensures value { result ≡ token_start text.now index }
    ensures within { IfSome result (λ at. at < length text.now) }
{
    let mut mode = Mode::Between;
    let mut left = index;
    for (at, byte) in text.iter().enumerate() {
        if mode.begins_token(*byte) {
            if left == 0 {
                return Some(at);
            }
            left -= 1;
        }
        mode = mode.after(*byte);
    }
    None
}
