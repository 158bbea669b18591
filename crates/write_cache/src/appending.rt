// The records of a cache: each icon is appended to the chain of its bucket.
ghost use Rattle.std.specs.Prelude.{◌≡◌, ℕ, ◌+◌, ◌*◌, ◌%◌, ◌^◌, ◌≤◌, ◌<◌, length, get_or, set, replicate};
ghost use Rattle.format.specs.Layout.{end_value};
ghost use Rattle.format.specs.Bytes.{put};
ghost use Rattle.format.specs.String.{hash};
ghost use Rattle.catalogue.specs.Fields.{name_text, catalogue_in};
ghost use Rattle.catalogue.specs.Written.{places, front};
ghost use Rattle.catalogue.specs.Cursor.{IconThere};
ghost use Rattle.passes.specs.Passes.{Judged};
ghost use Rattle.passes.specs.Record.{appended};
ghost use Rattle.write_cache.specs.Appending.{leads, bucket_at, Ready};

use bigendian::byte;
use judging::icon_end;
use passes::record;
use passes::sizes::list_size;

// The bucket, of `buckets`, of the name of the icon at `icon`.
fn bucket(catalogue: &[u8], icon: usize, buckets: usize) -> usize
    requires { IconThere catalogue.now icon × (0 < buckets) }
    ensures { result ≡ hash (name_text catalogue.now icon) % buckets }
{
    let text = icon + 1;
    let end = text + byte(catalogue, icon) as usize;
    let name = strings::read_name(&catalogue[text..end]);
    name.hash as usize % buckets
}

// The field that leads to the next record of bucket `k`, whose last record is `last`.
fn lead(last: u32, k: usize) -> usize
    requires { k < 4096 }
    ensures { result ≡ leads last k }
{
    if last == 0xFFFF_FFFF {
        16 + 4 * k
    } else {
        last as usize
    }
}

// Appends the icon at `icon` to the chain of its bucket: puts its record into `out` at `at`, and its
// offset into the field that leads to it. `last` has the last record of each bucket.
fn append(
    catalogue: &[u8],
    icon: usize,
    buckets: usize,
    out: &mut [u8],
    at: usize,
    name: usize,
    images: usize,
    last: &mut [u32],
)
    requires icon_there { IconThere catalogue.now icon × (0 < buckets) × (buckets ≤ 4096) × (buckets ≤ length last.old) }
    requires at_in_bounds { (at + 12 ≤ length out.old) × (at < 2 ^ 32) × (name < 2 ^ 32) × (images < 2 ^ 32) }
    requires buckets_in_bounds { leads (get_or last.old (bucket_at catalogue.now icon buckets) 0) (bucket_at catalogue.now icon buckets) + 4 ≤ length out.old }
    ensures out_after { out.new ≡ appended out.old at name images (leads (get_or last.old (bucket_at catalogue.now icon buckets) 0) (bucket_at catalogue.now icon buckets)) }
    ensures last_after { last.new ≡ set last.old (bucket_at catalogue.now icon buckets) at }
{
    let k = bucket(catalogue, icon, buckets);
    let field = lead(last[k], k);
    record::append(out, at, name, images, field);
    last[k] = at as u32;
}

// Puts the records of all icons behind the tables that stand in `out`, and leads the chains to them,
// in catalogue order. Their lists begin at `lists` and their names at `names`.
fn append_all(
    catalogue: &[u8],
    first: usize,
    icons: usize,
    buckets: usize,
    lists: usize,
    names: usize,
    out: &mut [u8],
    last: &mut [u32],
)
    requires by_index { (m : ℕ) × Judged catalogue.now m icons first }
    requires ready { Ready (catalogue_in catalogue.now) buckets lists names out.old }
    requires last_value { last.old ≡ replicate 4096 end_value }
    ensures { out.new ≡ put out.old 0 (front (catalogue_in catalogue.now) buckets (places (catalogue_in catalogue.now) buckets) icons) }
{
    let mut icon = first;
    let mut at = 16 + 4 * buckets;
    let mut list = lists;
    let mut name = names;
    for _ in 0..icons {
        append(catalogue, icon, buckets, out, at, name, list, last);
        at += 12;
        list += list_size(catalogue, icon);
        name += byte(catalogue, icon) as usize + 1;
        icon = icon_end(catalogue, icon);
    }
}

// The same, with the last record of each bucket remembered: none at first.
pub fn records(
    catalogue: &[u8],
    first: usize,
    icons: usize,
    buckets: usize,
    lists: usize,
    names: usize,
    out: &mut [u8],
)
    requires by_index { (m : ℕ) × Judged catalogue.now m icons first }
    requires ready { Ready (catalogue_in catalogue.now) buckets lists names out.old }
    ensures { out.new ≡ put out.old 0 (front (catalogue_in catalogue.now) buckets (places (catalogue_in catalogue.now) buckets) icons) }
{
    let mut last: [u32; 4096] = [0xFFFF_FFFF; 4096];
    append_all(
        catalogue, first, icons, buckets, lists, names, out, &mut last,
    );
}
