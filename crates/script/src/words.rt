ghost use Rattle.std.specs.Prelude.{◌≡◌, ◌≤◌, length, not, position};
ghost use Rattle.std.specs.Iterator.{YieldsFirstRef, item_count};
ghost use Rattle.std.specs.List.{position_or_len};
ghost use Rattle.script.specs.Words.{uncommented, blank, words_of};

// The words of a text that are not read yet.
#[derive(Drop)]
pub(crate) struct Words<'a> {
    rest: &'a [u8],
}

impl<'a> Words<'a> {
    // The words of a line, without its comment.
    pub(crate) fn of(line: &'a [u8]) -> Words<'a>
        ensures { result.rest.now ≡ uncommented line.now }
    {
        Words {
            rest: without_comment(line),
        }
    }
}

impl<'a> Iterator for Words<'a> {
    type Item = &'a [u8];

    ghost next_gives = { YieldsFirstRef (λ s. words_of s.rest.now) };

    ghost remaining = { item_count (λ s. words_of s.rest.now) };

    fn next(&mut self) -> Option<&'a [u8]> {
        let text = &self.rest[word_start(self.rest)?..];
        let (word, rest) = text.split_at(word_length(text));
        self.rest = rest;
        Some(word)
    }
}

fn without_comment(line: &[u8]) -> &[u8]
    ensures { result.now ≡ uncommented line.now }
{
    let end = line.iter().position(|byte| *byte == b'#');
    &line[..end.unwrap_or(line.len())]
}

fn is_blank(byte: u8) -> bool
    ensures { result ≡ blank byte }
{
    matches!(byte, b' ' | b'\t' | b'\r')
}

// Where the first word begins.
fn word_start(text: &[u8]) -> Option<usize>
    ensures { result ≡ position (λ c. not (blank c)) text.now }
{
    text.iter().position(|byte| !is_blank(*byte))
}

// How long the word in front is.
fn word_length(text: &[u8]) -> usize
    ensures within { result ≤ length text.now }
    ensures word { result ≡ position_or_len blank text.now }
{
    text.iter()
        .position(|byte| is_blank(*byte))
        .unwrap_or(text.len())
}
