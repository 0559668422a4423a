// Records: laid into a stripe, and read back.
ghost use Rattle.yebarg.specs.Promise.{LayMeets, ReadBackMeets};
ghost use Rattle.capi.specs.Word.{shape_of, Told};

use crate::shapes::{code_of, shape_of};
use yebarg::{lay, read_back};

// Lays a record into the data columns of a stripe.
#[unsafe(no_mangle)]
pub extern "C" fn przytulisz_lay(shape: u64, rec: &[u8], stripe: &mut [u8]) -> u32
    ensures { Told (λ answer. LayMeets (shape_of shape) rec.now stripe.old answer stripe.new) result }
{
    code_of(lay(shape_of(shape), rec, stripe))
}

// Writes the record of a stripe.
#[unsafe(no_mangle)]
pub extern "C" fn przytulisz_read_back(shape: u64, stripe: &[u8], rec: &mut [u8]) -> u32
    ensures { Told (λ answer. ReadBackMeets (shape_of shape) stripe.now rec.old answer rec.new) result }
{
    code_of(read_back(shape_of(shape), stripe, rec))
}
