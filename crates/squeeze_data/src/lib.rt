// Whether an image of an accepted cache has image data: 25 at the first in the check's order.
#![tactic(auto)]

ghost use Rattle.std.specs.Prelude.{◌≡◌, ◌+◌, ◌*◌, ◌≤◌, length};
ghost use Rattle.format.specs.Chain.{all_records};
ghost use Rattle.format.specs.declared.Reading.TheVariants.{Short};
ghost use Rattle.format.specs.Fault.{verdict};
ghost use Rattle.tables.specs.Tables.{Sound};
ghost use Rattle.squeeze_spec.specs.Call.{images_data_fault, record_data_fault, data_fault};
ghost use Rattle.squeeze_data.specs.Listed.{ListInside};

use bigendian::u32_at;
use format::Fault;
use in_order::{first, next};
use tables::Tables;

// 25 at the first of `m` images from `at` on that has image data.
fn in_list(cache: &[u8], m: usize, at: usize) -> Result<(), Fault>
    requires { at + 8 * m ≤ length cache.now }
    ensures { result ≡ verdict (images_data_fault m cache.now at) }
{
    for i in 0..m {
        let image = at + 8 * i;
        if u32_at(cache, image + 4) != 0 {
            return Err(Fault {
                number: 25,
                place: image,
            });
        }
    }
    Ok(())
}

// 25 at the first image of `record` that has image data.
fn in_record(cache: &[u8], record: usize) -> Result<(), Fault>
    requires { ListInside cache.now «record» }
    ensures { result ≡ verdict (record_data_fault cache.now «record») }
{
    let list = u32_at(cache, record + 8) as usize;
    let count = u32_at(cache, list) as usize;
    in_list(cache, count, list + 4)
}

// 25 at the first image in the check's order that has image data.
pub fn image_data(cache: &[u8], t: Tables) -> Result<(), Fault>
    requires { Sound cache.now t }
    ensures { result ≡ verdict (data_fault cache.now (all_records Short cache.now)) }
{
    let mut cursor = first(cache, t);
    // Behind the last one there is the end value.
    while cursor.record != 0xFFFF_FFFF {
        in_record(cache, cursor.record as usize)?;
        cursor = next(cache, t, cursor);
    }
    Ok(())
}
