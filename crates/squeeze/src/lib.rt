// Squeezes the dead bytes out of an accepted cache: rewrites it in the layout of a written one,
// with its records in the check's order, equal names dropped, and equal strings and lists stored
// once.
#![tactic(auto)]

ghost use Rattle.std.specs.Prelude.{◌≡◌, ◌++◌, ◌^◌, ◌≤◌, ◌<◌, length, drop, IfErr};
ghost use Rattle.format.specs.Chain.{all_records};
ghost use Rattle.format.specs.Header.{buckets};
ghost use Rattle.format.specs.declared.Reading.TheVariants.{Short};
ghost use Rattle.catalogue.specs.Call.{write_answer};
ghost use Rattle.squeeze_spec.specs.Squeezed.{squeezed};
ghost use Rattle.squeeze_spec.specs.Call.{data_fault, squeeze_leaves};
ghost use Rattle.squeeze_spec.specs.Call as calls;
ghost use Rattle.tables.specs.Tables.{Sound};
ghost use Rattle.squeeze.specs.Sizes.{SizesOf, Lent, size_of};
ghost use Rattle.squeeze.specs.Laws.Whole.{Fits};

use format::Fault;
use passes::head;
use squeeze_data::image_data;
use squeeze_lists::lists;
use squeeze_names::mark_repeated;
use squeeze_paths::paths;
use squeeze_records::records;
use tables::Tables;

// How many icons stay, and how many bytes their lists and all strings take.
#[derive(Clone, Copy)]
struct Sizes {
    icons: usize,
    lists: usize,
    strings: usize,
}

// Measures what the squeezed cache has beside its tables. `index` and `places` may hold anything,
// and `repeated` marks the records that go.
fn measure(
    cache: &[u8],
    t: Tables,
    index: &mut [u32],
    places: &mut [u32],
    repeated: &[u32],
) -> Sizes
    requires { Sound cache.now t × Lent cache.now index.old places.old repeated.now }
    ensures { SizesOf cache.now result }
{
    // The pass that puts the paths measures them too: lent no room, it puts nothing.
    let mut none: [u8; 1] = [0; 1];
    let texts = paths(cache, t, index, places, &mut none, 0, 0);
    let named = squeeze_texts::measure(cache, t, index, places, repeated, texts);
    let icons = named.icons;
    Sizes {
        icons,
        lists: squeeze_sizes::measure(cache, t, index, places, repeated, icons),
        strings: named.end,
    }
}

// Puts the squeezed cache into `out`, which has room for it: the lists and a table of where they
// are, the directory list and the paths, the header and an empty hash, and then the records and the
// names.
fn fill(
    cache: &[u8],
    t: Tables,
    index: &mut [u32],
    places: &mut [u32],
    repeated: &[u32],
    out: &mut [u8],
    sizes: Sizes,
)
    requires { Sound cache.now t × Lent cache.now index.old places.old repeated.now × SizesOf cache.now sizes × Fits cache.now out.old }
    ensures { out.new ≡ squeezed cache.now ++ drop (length (squeezed cache.now)) out.old }
{
    let icons = sizes.icons;
    let buckets = t.buckets as usize;
    // A cell for each icon says where its list is. The cells take the last third of the records' room:
    // no record reaches the cell of the next, which is read before it is written over.
    let cells = 16 + 4 * buckets + 8 * icons;
    let lists_at = 16 + 4 * buckets + 12 * icons;
    let directories_at = lists_at + sizes.lists;
    let strings_at = directories_at + 4 + 4 * t.directories as usize;
    head::clear(out, cells, icons);
    lists(
        cache, t, index, places, repeated, out, cells, lists_at, icons,
    );
    let texts = paths(cache, t, index, places, out, directories_at, strings_at);
    head::tables(out, buckets, directories_at);
    records(cache, t, index, places, repeated, out, texts, icons);
}

// How many bytes the squeezed cache has.
fn size(t: Tables, sizes: Sizes) -> usize
    requires { (sizes.icons ≤ 2 ^ 24) × (sizes.lists ≤ 2 ^ 48) × (sizes.strings ≤ 2 ^ 48) }
    ensures { result ≡ size_of t sizes }
{
    let tables = 20 + 4 * t.buckets as usize + 4 * t.directories as usize;
    tables + 12 * sizes.icons + sizes.lists + sizes.strings
}

// Rewrites an accepted cache without image data and with few buckets: 19, and then its bytes. Says
// how many these are.
fn rewrite(
    cache: &[u8],
    t: Tables,
    index: &mut [u32],
    places: &mut [u32],
    repeated: &[u32],
    out: &mut [u8],
) -> Result<usize, Fault>
    requires { Sound cache.now t × Lent cache.now index.old places.old repeated.now × (buckets cache.now ≤ 4096) × ((data_fault cache.now (all_records Short cache.now)).number ≡ 0) }
    ensures answer { write_answer result ≡ calls.squeeze cache.now (length out.old) }
    ensures refused { IfErr result (λ fault. 0 < fault.number) }
    ensures lent { out.new ≡ squeeze_leaves cache.now out.old }
{
    let sizes = measure(cache, t, index, places, repeated);
    let length = size(t, sizes);
    if out.len() < length {
        return Err(Fault {
            number: 19,
            place: 0,
        });
    }
    if 16777216 < length {
        return Err(Fault {
            number: 19,
            place: 0,
        });
    }
    fill(cache, t, index, places, repeated, out, sizes);
    Ok(length)
}

// Squeezes `cache` into `squeezed`, if the check accepts it, it has at most 4,096 buckets and no
// image data, and there is room, and says how many bytes that are; with a refusal nothing is
// written. The indexes and the marks stand on the stack: 632 KiB.
pub fn squeeze(cache: &[u8], squeezed: &mut [u8]) -> Result<usize, Fault>
    ensures answer { write_answer result ≡ calls.squeeze cache.now (length squeezed.old) }
    ensures refused { IfErr result (λ fault. 0 < fault.number) }
    ensures lent { squeezed.new ≡ squeeze_leaves cache.now squeezed.old }
{
    let check = icon_cache::check_short(cache);
    if check.number != 0 {
        return Err(Fault {
            number: check.number,
            place: check.place,
        });
    }
    let t = tables::read(cache);
    if 4096 < t.buckets {
        return Err(Fault {
            number: 25,
            place: 4,
        });
    }
    image_data(cache, t)?;
    let mut index: [u32; 65536] = [0; 65536];
    let mut places: [u32; 65536] = [0; 65536];
    let mut repeated: [u32; 30720] = [0; 30720];
    mark_repeated(cache, t, &mut index, &mut repeated);
    rewrite(cache, t, &mut index, &mut places, &repeated, squeezed)
}
