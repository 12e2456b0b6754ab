// The functions of crate ouriscado in src/page_fields.rt, for C: each export calls the one of its name, whose comment says what it does.
ghost use Rattle.std.specs.Prelude.{◌≡◌, true, false};
ghost use Rattle.error.specs.Refusal.{refusal_of, value_or};
ghost use Rattle.scripthash_fields.specs.Fields.{read_link, is_last, first_off, next_off_of, extent_of, creates_of, n_fks, require_delta};
ghost use Rattle.scripthash_fields.specs.Fields.{stream_off_of, stream_cap_of, write_link, set_extent, set_creates, set_count, init_empty, after_set};
ghost use Rattle.ouriscado.specs.OutPage.{base_or0, count_or0};

#[unsafe(no_mangle)]
pub extern "C" fn ouriscado_sh_page_read_packed(page: &[u8], last: &mut bool, off: &mut u64) -> u32
    ensures number { result ≡ refusal_of (read_link page.now) }
    ensures last { last.new ≡ value_or (λ l. l.last) (read_link page.now) false }
    ensures off { off.new ≡ value_or (λ l. l.off) (read_link page.now) 0 }
{
    ouriscado::ouriscado_sh_page_read_packed(page, last, off)
}

#[unsafe(no_mangle)]
pub extern "C" fn ouriscado_sh_page_is_last(page: &[u8], last: &mut bool) -> u32
    ensures number { result ≡ refusal_of (is_last page.now) }
    ensures last { last.new ≡ value_or (λ x. x) (is_last page.now) false }
{
    ouriscado::ouriscado_sh_page_is_last(page, last)
}

#[unsafe(no_mangle)]
pub extern "C" fn ouriscado_sh_page_first_off(page: &[u8], off: &mut u64) -> u32
    ensures number { result ≡ refusal_of (first_off page.now) }
    ensures off { off.new ≡ value_or (λ x. x) (first_off page.now) 0 }
{
    ouriscado::ouriscado_sh_page_first_off(page, off)
}

#[unsafe(no_mangle)]
pub extern "C" fn ouriscado_sh_page_next(page: &[u8], off: &mut u64) -> u32
    ensures number { result ≡ refusal_of (next_off_of page.now) }
    ensures off { off.new ≡ value_or (λ x. x) (next_off_of page.now) 0 }
{
    ouriscado::ouriscado_sh_page_next(page, off)
}

#[unsafe(no_mangle)]
pub extern "C" fn ouriscado_sh_page_write_packed(page: &mut [u8], last: bool, off: u64) -> u32
    ensures number { result ≡ refusal_of (write_link page.old last off) }
    ensures page { page.new ≡ after_set page.old (write_link page.old last off) }
{
    ouriscado::ouriscado_sh_page_write_packed(page, last, off)
}

#[unsafe(no_mangle)]
pub extern "C" fn ouriscado_sh_page_set_last(page: &mut [u8], off: u64) -> u32
    ensures number { result ≡ refusal_of (write_link page.old true off) }
    ensures page { page.new ≡ after_set page.old (write_link page.old true off) }
{
    ouriscado::ouriscado_sh_page_set_last(page, off)
}

#[unsafe(no_mangle)]
pub extern "C" fn ouriscado_sh_page_set_next(page: &mut [u8], off: u64) -> u32
    ensures number { result ≡ refusal_of (write_link page.old false off) }
    ensures page { page.new ≡ after_set page.old (write_link page.old false off) }
{
    ouriscado::ouriscado_sh_page_set_next(page, off)
}

#[unsafe(no_mangle)]
pub extern "C" fn ouriscado_sh_page_stream_off(page: &[u8], off: &mut usize) -> u32
    ensures number { result ≡ refusal_of (stream_off_of page.now) }
    ensures off { off.new ≡ value_or (λ x. x) (stream_off_of page.now) 0 }
{
    ouriscado::ouriscado_sh_page_stream_off(page, off)
}

#[unsafe(no_mangle)]
pub extern "C" fn ouriscado_sh_page_stream_cap(page: &[u8], cap: &mut usize) -> u32
    ensures number { result ≡ refusal_of (stream_cap_of page.now) }
    ensures cap { cap.new ≡ value_or (λ x. x) (stream_cap_of page.now) 0 }
{
    ouriscado::ouriscado_sh_page_stream_cap(page, cap)
}

#[unsafe(no_mangle)]
pub extern "C" fn ouriscado_sh_page_extent(page: &[u8], base: &mut u64, n: &mut u32) -> u32
    ensures number { result ≡ refusal_of (extent_of page.now) }
    ensures base { base.new ≡ value_or base_or0 (extent_of page.now) 0 }
    ensures count { n.new ≡ value_or count_or0 (extent_of page.now) 0 }
{
    ouriscado::ouriscado_sh_page_extent(page, base, n)
}

#[unsafe(no_mangle)]
pub extern "C" fn ouriscado_sh_page_set_extent(page: &mut [u8], base: u64, n: u32) -> u32
    ensures number { result ≡ refusal_of (set_extent page.old base n) }
    ensures page { page.new ≡ after_set page.old (set_extent page.old base n) }
{
    ouriscado::ouriscado_sh_page_set_extent(page, base, n)
}

#[unsafe(no_mangle)]
pub extern "C" fn ouriscado_sh_page_extent_creates(page: &[u8], n: &mut u32) -> u32
    ensures number { result ≡ refusal_of (creates_of page.now) }
    ensures creates { n.new ≡ value_or (λ x. x) (creates_of page.now) 0 }
{
    ouriscado::ouriscado_sh_page_extent_creates(page, n)
}

#[unsafe(no_mangle)]
pub extern "C" fn ouriscado_sh_page_set_extent_creates(page: &mut [u8], n: u32) -> u32
    ensures number { result ≡ refusal_of (set_creates page.old n) }
    ensures page { page.new ≡ after_set page.old (set_creates page.old n) }
{
    ouriscado::ouriscado_sh_page_set_extent_creates(page, n)
}

#[unsafe(no_mangle)]
pub extern "C" fn ouriscado_sh_page_n_fks(page: &[u8], n: &mut usize) -> u32
    ensures number { result ≡ refusal_of (n_fks page.now) }
    ensures count { n.new ≡ value_or (λ x. x) (n_fks page.now) 0 }
{
    ouriscado::ouriscado_sh_page_n_fks(page, n)
}

#[unsafe(no_mangle)]
pub extern "C" fn ouriscado_sh_page_set_n_fks(page: &mut [u8], n: u16) -> u32
    ensures number { result ≡ refusal_of (set_count page.old n) }
    ensures page { page.new ≡ after_set page.old (set_count page.old n) }
{
    ouriscado::ouriscado_sh_page_set_n_fks(page, n)
}

#[unsafe(no_mangle)]
pub extern "C" fn ouriscado_sh_page_require_delta(page: &[u8]) -> u32
    ensures { result ≡ refusal_of (require_delta page.now) }
{
    ouriscado::ouriscado_sh_page_require_delta(page)
}

#[unsafe(no_mangle)]
pub extern "C" fn ouriscado_sh_page_init_empty(page: &mut [u8]) -> u32
    ensures number { result ≡ refusal_of (init_empty page.old) }
    ensures page { page.new ≡ after_set page.old (init_empty page.old) }
{
    ouriscado::ouriscado_sh_page_init_empty(page)
}
