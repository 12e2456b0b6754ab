// The functions of crate ouriscado in src/page_pack.rt, for C: each export calls the one of its name, whose comment says what it does.
ghost use Rattle.std.specs.Prelude.{◌≡◌};
ghost use Rattle.error.specs.Refusal.{refusal_of};
ghost use Rattle.scripthash_fields.specs.Fields.{after_set};
ghost use Rattle.scripthash_pages.specs.Pack.{pack_page, pack_extent};

#[unsafe(no_mangle)]
pub extern "C" fn ouriscado_sh_page_pack_fks(page: &mut [u8], fks: &[u64], next: u64) -> u32
    ensures number { result ≡ refusal_of (pack_page page.old fks.now next) }
    ensures page { page.new ≡ after_set page.old (pack_page page.old fks.now next) }
{
    ouriscado::ouriscado_sh_page_pack_fks(page, fks, next)
}

#[unsafe(no_mangle)]
pub extern "C" fn ouriscado_sh_page_pack_extent_last_fks(
    page: &mut [u8],
    fks: &[u64],
    base: u64,
    n: u32,
    next: u64,
) -> u32
    ensures number { result ≡ refusal_of (pack_extent page.old fks.now base n next) }
    ensures page { page.new
        ≡ after_set page.old (pack_extent page.old fks.now base n next) }
{
    ouriscado::ouriscado_sh_page_pack_extent_last_fks(page, fks, base, n, next)
}
