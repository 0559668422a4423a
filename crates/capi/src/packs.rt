// Packs.
ghost use Rattle.capi.specs.Promise.{ReadCodeMeets};

use pack::read_pack;

// Reads a pack: its shape, the nodes that it doesn't hold, and the filled stripe.
#[unsafe(no_mangle)]
pub extern "C" fn przytulisz_read_pack(
    pack: &[u8],
    stripe: &mut [u8],
    shape: &mut u64,
    lost: &mut u32,
) -> u32
    ensures { ReadCodeMeets pack.now stripe.old shape.old lost.old result stripe.new shape.new lost.new }
{
    match read_pack(pack, stripe) {
        Err(refusal) => refusal.into(),
        Ok(contents) => {
            *shape = (contents.shape.n + 256 * contents.shape.r) as u64;
            *lost = contents.lost.into();
            0
        },
    }
}
