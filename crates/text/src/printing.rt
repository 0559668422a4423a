// The text of an answer of the pack reader. Of this module `push_read`, `push_contents`, `push_answer` and `put_answer` have a `requires`: none of these can be
// named from outside the crate.
ghost use Rattle.std.specs.Prelude.{◌≡◌, ◌≤◌, ◌++◌, length, drop, IfOk, false};
ghost use Rattle.entries.specs.Pack.{nodes_of};
ghost use Rattle.rules.specs.Lost.{lost_count, bit_above};
ghost use Rattle.rules.specs.Refusal.{refusal_of};
ghost use Rattle.text.specs.Text.{read_text, contents_refusal, contents_text, printed, longest_text};
ghost use Rattle.text.specs.Kernel.{RoomFor, WrittenOn};
ghost use Rattle.text.specs.Promise.{PrintMeets};

use crate::lines::{push_columns, push_lost, push_refused, push_shape};
use crate::pages::{LONGEST_TEXT, Page};
use arrayvec::ArrayVec;
use pack::{Contents, LARGEST_STRIPE};
use rules::{Refusal, Sizes, check_len, measure};

// The nodes of a set, in rising order.
#[tactic(auto, using(crate::proofs::Turns::nodes_in_turn))]
fn lost_nodes(sizes: Sizes, lost: u16) -> ArrayVec<u8, 16>
    ensures { result.items ≡ nodes_of sizes.shape lost }
{
    let mut nodes = ArrayVec::new();
    for i in 0..sizes.shape.n {
        if (lost >> i) % 2 == 1 {
            nodes.push(i as u8 + 1);
        }
    }
    nodes
}

// The text of an accepted shape, and of a lost set that it can fill.
#[tactic(auto, using(crate::proofs::Puts::one_by_one), unfolding(crate::specs::Text::read_text, crate::specs::Text::lost_line))]
fn push_read(page: &mut Page, sizes: Sizes, lost: u16, stripe: &[u8; LARGEST_STRIPE])
    requires inside { bit_above sizes.shape lost ≡ false }
    requires few { lost_count lost ≤ sizes.shape.r }
    requires room { RoomFor page.old (read_text sizes.shape lost stripe.now) }
    ensures { WrittenOn page.old (read_text sizes.shape lost stripe.now) page.new }
{
    let nodes = lost_nodes(sizes, lost);
    push_shape(page, sizes);
    push_lost(page, &nodes);
    push_columns(page, sizes, stripe, &nodes);
}

// The sizes of a shape and a lost set. Those that no reader answers are refused.
#[tactic(auto, unfolding(crate::specs::Text::contents_refusal, rules::specs::Refusal::shape_refusal, rules::specs::Lost::bit_above, rules::specs::Lost::lost_count))]
fn checked(contents: Contents) -> Result<Sizes, Refusal>
    ensures refused { refusal_of result ≡ contents_refusal contents }
    ensures taken { IfOk result (λ sizes.
        (sizes.shape ≡ contents.shape) × (bit_above sizes.shape contents.lost ≡ false) × (lost_count contents.lost ≤ sizes.shape.r)) }
{
    let Contents { shape, lost } = contents;
    let Ok(sizes) = measure(shape) else {
        return Err(Refusal::BadShape);
    };
    if lost as usize >> sizes.shape.n != 0 {
        return Err(Refusal::BadNode);
    }
    if sizes.shape.r < lost.count_ones() as usize {
        return Err(Refusal::TooManyLost);
    }
    Ok(sizes)
}

// The text of a shape and a lost set. Those that no reader answers are printed as the refusal that they call for.
fn push_contents(page: &mut Page, contents: Contents, stripe: &[u8; LARGEST_STRIPE])
    requires { RoomFor page.old (contents_text (contents_refusal contents) contents stripe.now) }
    ensures { WrittenOn page.old (contents_text (contents_refusal contents) contents stripe.now) page.new }
{
    match checked(contents) {
        Ok(sizes) => push_read(page, sizes, contents.lost, stripe),
        Err(refusal) => push_refused(page, refusal.number()),
    }
}

// The text of an answer.
#[tactic(auto, unfolding(crate::specs::Text::printed))]
fn push_answer(page: &mut Page, answer: Result<Contents, u8>, stripe: &[u8; LARGEST_STRIPE])
    requires { RoomFor page.old (printed answer stripe.now) }
    ensures { WrittenOn page.old (printed answer stripe.now) page.new }
{
    match answer {
        Ok(contents) => push_contents(page, contents, stripe),
        Err(number) => push_refused(page, number),
    }
}

// Puts the text of an answer at the front of the bytes lent for it, and answers its length.
#[tactic(auto, using(std::proofs::lemmas::Grind::common_steps, crate::proofs::Lengths::longest_text_lem))]
fn put_answer(answer: Result<Contents, u8>, stripe: &[u8; LARGEST_STRIPE], text: &mut [u8]) -> usize
    requires { length text.old ≡ longest_text }
    ensures counted { result ≡ length (printed answer stripe.now) }
    ensures front { text.new ≡ printed answer stripe.now ++ drop result text.old }
{
    let mut page = Page { text, len: 0 };
    push_answer(&mut page, answer, stripe);
    page.len
}

// Puts the text of an answer, which is a number where it is refused, and of the stripe that was written with it, at the front of the bytes lent for it, and
// answers its length.
#[tactic(auto, unfolding(crate::specs::Refusal::print_refusal))]
pub fn print(answer: Result<Contents, u8>, stripe: &[u8], text: &mut [u8]) -> Result<usize, Refusal>
    ensures { PrintMeets answer stripe.now text.old result text.new }
{
    let Ok(stripe) = <&[u8; LARGEST_STRIPE]>::try_from(stripe) else {
        return Err(Refusal::BadLength);
    };
    check_len(text, LONGEST_TEXT)?;
    let length = put_answer(answer, stripe, text);
    Ok(length)
}
