ghost use Rattle.std.specs.Prelude.{◌≡◌};
ghost use Rattle.script.specs.Words.{words_of};
ghost use Rattle.script.specs.Numbers.{all_bytes};
ghost use Rattle.script.specs.Meanings.{feeds_all, sets_by, by_itself, command};
ghost use Rattle.script.specs.Lines.{act_says, means, Tells};

use crate::Act;
use crate::numbers::{number, push_hex, signed};
use crate::unread::Unread;
use crate::words::Words;
use std::alloc::Global;

// The act that the first word of a line names, with the words that follow.
pub(crate) fn named(heap: Global, name: &[u8], words: Words) -> Result<Act, Unread>
    ensures { Tells result (command name.now (words_of words.entry.rest.now)) }
{
    match name {
        b"feed" => feed(heap, words),
        b"set" => set(words).ok_or(Unread::Unreadable),
        b"tally" => alone(Act::Tally, words).ok_or(Unread::Unreadable),
        b"close" => alone(Act::Close, words).ok_or(Unread::Unreadable),
        _ => Err(Unread::Unreadable),
    }
}

// The bytes of all words that follow.
fn feed(heap: Global, words: Words) -> Result<Act, Unread>
    ensures { Tells result (feeds_all (all_bytes (words_of words.entry.rest.now))) }
{
    let mut bytes = Vec::new(heap);
    for word in words {
        push_hex(&mut bytes, word)?;
    }
    Ok(Act::Feed(bytes))
}

// The three words that follow.
fn set(mut words: Words) -> Option<Act>
    ensures { means result ≡ sets_by (words_of words.entry.rest.now) }
{
    let depth = number(words.next()?)?;
    let item = number(words.next()?)?;
    let value = signed(words.next()?)?;
    alone(Act::Set { depth, item, value }, words)
}

// An act that no word follows.
fn alone(act: Act, mut words: Words) -> Option<Act>
    ensures { means result ≡ by_itself (act_says act) (words_of words.entry.rest.now) }
{
    match words.next() {
        None => Some(act),
        Some(_) => None,
    }
}
