// The page that a text is written on. Functions of this module have a `requires`; none can be named from outside the crate.
ghost use Rattle.std.specs.Prelude.{◌≡◌, ◌<◌, length};
ghost use Rattle.text.specs.Text.{spaced, spaced_all};
ghost use Rattle.text.specs.Kernel.{Fits, Put, RoomFor, WrittenOn};

use columns::copy;
use itoa::write_digits;

// How long the longest text is, and how many bytes are lent for one.
pub const LONGEST_TEXT: usize = 4168;

// The bytes that are lent for a text, and how many of them are written.
#[derive(Drop)]
pub struct Page<'a> {
    pub text: &'a mut [u8],
    pub len: usize,
}

// Puts words into a text from `at` on, and answers where they end.
fn put(words: &[u8], at: usize, text: &mut [u8]) -> usize
    requires { Fits at words.now text.old }
    ensures { Put at words.now text.old text.new result }
{
    let stop = at + words.len();
    copy(words, &mut text[at..stop]);
    stop
}

// How many bytes a space and a number below 1,000 in decimal are.
#[tactic(auto, using(std::proofs::lemmas::Grind::common_steps), unfolding(crate::specs::Text::spaced, crate::specs::Text::decimal))]
fn spaced_len(x: usize) -> usize
    requires { x < 1000 }
    ensures { result ≡ length (spaced x) }
{
    if x < 10 {
        2
    } else if x < 100 {
        3
    } else {
        4
    }
}

// Puts a space and a number below 1,000 in decimal into a text from `at` on, and answers where they end.
fn put_number(x: usize, at: usize, text: &mut [u8]) -> usize
    requires x_bound { x < 1000 }
    requires fits { Fits at (spaced x) text.old }
    ensures { Put at (spaced x) text.old text.new result }
{
    let stop = at + spaced_len(x);
    text[at] = b' ';
    write_digits(x as u64, text, stop);
    stop
}

impl Page<'_> {
    // Writes words after what is written.
    pub fn push(&mut self, words: &[u8])
        requires { RoomFor self.old words.now }
        ensures { WrittenOn self.old words.now self.new }
    {
        self.len = put(words, self.len, self.text);
    }

    // A space and a number below 1,000 in decimal.
    pub fn push_number(&mut self, x: usize)
        requires x_bound { x < 1000 }
        requires room { RoomFor self.old (spaced x) }
        ensures { WrittenOn self.old (spaced x) self.new }
    {
        self.len = put_number(x, self.len, self.text);
    }

    // Each byte of a list so.
    #[tactic(auto, using(crate::proofs::Puts::written_in_turn), unfolding(crate::specs::Text::spaced_all))]
    pub fn push_bytes(&mut self, list: &[u8])
        requires { RoomFor self.old (spaced_all list.now) }
        ensures { WrittenOn self.old (spaced_all list.now) self.new }
    {
        for &byte in list {
            self.push_number(usize::from(byte));
        }
    }
}
