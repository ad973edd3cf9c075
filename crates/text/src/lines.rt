// Lines: a line ends before a line feed, or where the text ends.
ghost use Rattle.std.specs.Prelude.{◌≡◌, take};
ghost use Rattle.text.specs.Lines as L;
ghost use Rattle.text.specs.Lines.{line_length};

// The line feed.
const FEED: u8 = b'\n';

// How many bytes stand before the first line feed.
fn line_length(text: &[u8]) -> usize
    ensures { result ≡ line_length text.now }
{
    text.iter().position(|&c| c == FEED).unwrap_or(text.len())
}

// The bytes before the first line feed.
pub fn line(text: &[u8]) -> &[u8]
    ensures { result.now ≡ L.line text.now }
{
    &text[..line_length(text)]
}

// The bytes behind the first line feed.
pub fn behind(text: &[u8]) -> &[u8]
    ensures { result.now ≡ L.behind text.now }
{
    let end = line_length(text);
    if end < text.len() {
        &text[end + 1..]
    } else {
        &[]
    }
}

// The first n bytes, or all where there are fewer.
pub fn front(text: &[u8], n: usize) -> &[u8]
    ensures { result.now ≡ take n text.now }
{
    &text[..n.min(text.len())]
}
