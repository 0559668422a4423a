// The lines of the text, put at the end of a page. Functions of this module have a `requires`; none can be named from outside the crate.
ghost use Rattle.std.specs.Prelude.{ℕ, ◌≤◌};
ghost use mathlib.Core.List.{flat_map};
ghost use Rattle.rules.specs.Rising.{Listed};
ghost use Rattle.text.specs.Text.{spaced_or_none, line, refused_line, shape_line, column_line};
ghost use Rattle.text.specs.Kernel.{RoomFor, WrittenOn};

use crate::pages::Page;
use pack::LARGEST_STRIPE;
use rules::Sizes;

// `refused` and the number.
#[tactic(auto, using(crate::proofs::Puts::one_by_one), unfolding(crate::specs::Text::refused_line, crate::specs::Text::line))]
pub fn push_refused(page: &mut Page, q: u8)
    requires { RoomFor page.old (refused_line q) }
    ensures { WrittenOn page.old (refused_line q) page.new }
{
    page.push(b"refused");
    page.push_number(usize::from(q));
    page.push(b"\n");
}

// `shape`, n, r, l.
#[tactic(auto, using(crate::proofs::Puts::one_by_one), unfolding(crate::specs::Text::shape_line, crate::specs::Text::line))]
pub fn push_shape(page: &mut Page, sizes: Sizes)
    requires { RoomFor page.old (shape_line sizes.shape) }
    ensures { WrittenOn page.old (shape_line sizes.shape) page.new }
{
    page.push(b"shape");
    page.push_number(sizes.shape.n);
    page.push_number(sizes.shape.r);
    page.push_number(sizes.l);
    page.push(b"\n");
}

// What follows `lost`: the nodes, or `none`.
#[tactic(auto, unfolding(crate::specs::Text::spaced_or_none))]
fn push_nodes(page: &mut Page, nodes: &[u8])
    requires { RoomFor page.old (spaced_or_none nodes.now) }
    ensures { WrittenOn page.old (spaced_or_none nodes.now) page.new }
{
    if nodes.is_empty() {
        page.push(b" none");
        return;
    }
    page.push_bytes(nodes);
}

// `lost` and the lost nodes, or `none`.
#[tactic(auto, using(crate::proofs::Puts::one_by_one), unfolding(crate::specs::Text::line))]
pub fn push_lost(page: &mut Page, nodes: &[u8])
    requires { RoomFor page.old (line "lost" (spaced_or_none nodes.now)) }
    ensures { WrittenOn page.old (line "lost" (spaced_or_none nodes.now)) page.new }
{
    page.push(b"lost");
    push_nodes(page, nodes);
    page.push(b"\n");
}

// `column`, a node and its bytes, which are a part of the stripe.
#[tactic(auto, using(crate::proofs::Columns::a_column, crate::proofs::Puts::one_by_one), unfolding(crate::specs::Text::column_line, crate::specs::Text::line))]
fn push_column(page: &mut Page, sizes: Sizes, stripe: &[u8; LARGEST_STRIPE], node: usize)
    requires inside { (1 ≤ node) × (node ≤ sizes.shape.n) }
    requires room { RoomFor page.old (column_line sizes.shape stripe.now node) }
    ensures { WrittenOn page.old (column_line sizes.shape stripe.now node) page.new }
{
    let start = (node - 1) * sizes.l;
    let stop = start + sizes.l;
    page.push(b"column");
    page.push_number(node);
    page.push_bytes(&stripe[start..stop]);
    page.push(b"\n");
}

// A line for the column of each node.
#[tactic(auto, using(crate::proofs::Puts::written_in_turn))]
pub fn push_columns(page: &mut Page, sizes: Sizes, stripe: &[u8; LARGEST_STRIPE], nodes: &[u8])
    requires inside { (i : ℕ) → Listed i nodes.now → (1 ≤ i) × (i ≤ sizes.shape.n) }
    requires room { RoomFor page.old (flat_map (column_line sizes.shape stripe.now) nodes.now) }
    ensures { WrittenOn page.old (flat_map (column_line sizes.shape stripe.now) nodes.now) page.new }
{
    for &node in nodes {
        push_column(page, sizes, stripe, usize::from(node));
    }
}
