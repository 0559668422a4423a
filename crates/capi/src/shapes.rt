// A shape as one number, and an answer as one.
ghost use Rattle.std.specs.Prelude.{◌≡◌};
ghost use Rattle.capi.specs.Word.{shape_of, code_of};
ghost use Rattle.capi.specs.Promise.{ShapeIs, SizesMeet};

use rules::{Refusal, Shape, measure};

// The shape that a number says: n is its lowest byte and r the rest, so that bits above the lowest 16 make an r that isn't accepted.
pub fn shape_of(shape: u64) -> Shape
    ensures { result ≡ shape_of shape }
{
    Shape::new((shape % 256) as usize, (shape / 256) as usize)
}

// 0, or the number of the refusal.
pub fn code_of(answer: Result<(), Refusal>) -> u32
    ensures { result ≡ code_of answer }
{
    match answer {
        Ok(()) => 0,
        Err(refusal) => refusal.into(),
    }
}

// The number of the shape with n nodes, r of them parity; 0, which says no accepted shape, where n or r is above 255.
#[unsafe(no_mangle)]
pub extern "C" fn przytulisz_shape(n: usize, r: usize) -> u64
    ensures { ShapeIs n r result }
{
    if n > 255 || r > 255 {
        return 0;
    }
    (n + 256 * r) as u64
}

// The sizes of a shape.
#[unsafe(no_mangle)]
pub extern "C" fn przytulisz_sizes(
    shape: u64,
    k: &mut usize,
    m: &mut usize,
    s: &mut usize,
    l: &mut usize,
) -> u32
    ensures { SizesMeet (shape_of shape) k.old m.old s.old l.old result k.new m.new s.new l.new }
{
    let Ok(z) = measure(shape_of(shape)) else {
        return Refusal::BadShape.into();
    };
    *k = z.k;
    *m = z.m;
    *s = z.s;
    *l = z.l;
    0
}
