//! Comments.
ghost use Rattle.std.specs.Prelude.{◌≡◌, ◌≤◌, length};
ghost use Rattle.mv_text.specs.declared.comments.Quoting.TheVariants.{Gap};
ghost use Rattle.mv_text.specs.Comments.{after_byte, before_comment, begins_comment, content_of, is_outside};

/// Where the bytes of a line have got to: before a word, in a word that is no text or behind one, in a text, or behind a
/// backslash in it.
#[derive(Clone, Copy)]
pub enum Quoting {
    Gap,
    InWord,
    InText,
    Escaped,
}

fn after_byte(place: Quoting, byte: u8) -> Quoting
    ensures { result ≡ after_byte place byte }
{
    match place {
        Quoting::Gap => match byte {
            b' ' => Quoting::Gap,
            b'"' => Quoting::InText,
            _ => Quoting::InWord,
        },
        Quoting::InWord => match byte {
            b' ' => Quoting::Gap,
            _ => Quoting::InWord,
        },
        Quoting::InText => match byte {
            b'"' => Quoting::InWord,
            b'\\' => Quoting::Escaped,
            _ => Quoting::InText,
        },
        Quoting::Escaped => Quoting::InText,
    }
}

fn is_outside(place: Quoting) -> bool
    ensures { result ≡ is_outside place }
{
    match place {
        Quoting::Gap => true,
        Quoting::InWord => true,
        Quoting::InText => false,
        Quoting::Escaped => false,
    }
}

fn begins_comment(bytes: &[u8]) -> bool
    ensures { result ≡ begins_comment bytes.now }
{
    match bytes {
        [b';', b';', ..] => true,
        _ => false,
    }
}

/// How many bytes stand before the comment.
fn count_to_comment(line: &[u8]) -> usize
    ensures count { result ≡ length (content_of line.now) }
    ensures within { result ≤ length line.now }
{
    let mut place = Quoting::Gap;
    let mut rest = line;
    let mut count: usize = 0;
    while let [byte, after @ ..] = rest {
        if is_outside(place) && begins_comment(rest) {
            return count;
        }
        place = after_byte(place, *byte);
        rest = after;
        count += 1;
    }
    count
}

/// The bytes before the first `;;` outside quotes.
pub fn content_of(line: &[u8]) -> &[u8]
    ensures { result.now ≡ content_of line.now }
{
    let (content, _) = line.split_at(count_to_comment(line));
    content
}
