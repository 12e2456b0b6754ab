// Whole pages packed from a list.
ghost use Rattle.std.specs.Prelude.{◌≡◌};
ghost use Rattle.error.specs.Refusal.{refusal_of};
ghost use Rattle.scripthash_fields.specs.Fields.{after_set};
ghost use Rattle.scripthash_pages.specs.Pack.{pack_page, pack_extent};

use crate::answers::number;

// Makes a page of version 1 of a rising list, with a next page, or LAST with first offset 0 where next is 0. Refuses 4 to 6, 10, 12, 13,
// 32, 33.
#[unsafe(no_mangle)]
pub extern "C" fn ouriscado_sh_page_pack_fks(page: &mut [u8], fks: &[u64], next: u64) -> u32
    ensures number { result ≡ refusal_of (pack_page page.old fks.now next) }
    ensures page { page.new ≡ after_set page.old (pack_page page.old fks.now next) }
{
    number(scripthash_pages::sh_page_pack_fks(page, fks, next))
}

// Makes a page of version 2 of a rising list, which names an extent, with a next page, or LAST with the extent's base where next is 0.
// Refuses 4 to 6, 8 to 10, 12, 13, 32, 33.
#[unsafe(no_mangle)]
pub extern "C" fn ouriscado_sh_page_pack_extent_last_fks(
    page: &mut [u8],
    fks: &[u64],
    base: u64,
    n: u32,
    next: u64,
) -> u32
    ensures number { result ≡ refusal_of (pack_extent page.old fks.now base n next) }
    ensures page { page.new
        ≡ after_set page.old (pack_extent page.old fks.now base n next) }
{
    number(scripthash_pages::sh_page_pack_extent_last_fks(page, fks, base, n, next))
}
