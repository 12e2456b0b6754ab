// The functions of crate ouriscado in src/page_entries.rt, for C: each export calls the one of its name, whose comment says what it does.
ghost use Rattle.std.specs.Prelude.{false, ◌≡◌, length};
ghost use Rattle.error.specs.Refusal.{refusal_of, value_or};
ghost use Rattle.scripthash_stream.specs.Stream.{after_decode};
ghost use Rattle.scripthash_fields.specs.Page.{next_off};
ghost use Rattle.scripthash_pages.specs.Entries.{page_scan, last_of, page_entries, read_count, page_padded, append_spot, has_spot, after_append};
ghost use Rattle.scripthash_pages.specs.Entries.{write_stream};
ghost use Rattle.scripthash_pages.specs.Entries.{after_write_stream};

#[unsafe(no_mangle)]
pub extern "C" fn ouriscado_sh_page_stream_tail(
    page: &[u8],
    taken: &mut usize,
    last: &mut u64,
) -> u32
    ensures number { result ≡ refusal_of (page_scan page.now) }
    ensures taken { taken.new ≡ value_or (λ s. s.taken) (page_scan page.now) 0 }
    ensures last { last.new ≡ value_or last_of (page_scan page.now) 0 }
{
    ouriscado::ouriscado_sh_page_stream_tail(page, taken, last)
}

#[unsafe(no_mangle)]
pub extern "C" fn ouriscado_sh_page_last_fk(page: &[u8], last: &mut u64) -> u32
    ensures number { result ≡ refusal_of (page_scan page.now) }
    ensures last { last.new ≡ value_or last_of (page_scan page.now) 0 }
{
    ouriscado::ouriscado_sh_page_last_fk(page, last)
}

#[unsafe(no_mangle)]
pub extern "C" fn ouriscado_sh_page_entries_into(
    page: &[u8],
    out: &mut [u64],
    count: &mut usize,
    padded: &mut usize,
) -> u32
    ensures number { result ≡ refusal_of (page_entries (length out.old) page.now) }
    ensures list { out.new ≡ after_decode out.old (page_entries (length out.old) page.now) }
    ensures count { count.new ≡ value_or read_count (page_entries (length out.old) page.now) 0 }
    ensures padded { padded.new
        ≡ value_or (λ _. page_padded page.now) (page_entries (length out.old) page.now) 0 }
{
    ouriscado::ouriscado_sh_page_entries_into(page, out, count, padded)
}

#[unsafe(no_mangle)]
pub extern "C" fn ouriscado_sh_page_decode_slice_into(
    page: &[u8],
    out: &mut [u64],
    count: &mut usize,
    next: &mut u64,
    padded: &mut usize,
) -> u32
    ensures number { result ≡ refusal_of (page_entries (length out.old) page.now) }
    ensures list { out.new ≡ after_decode out.old (page_entries (length out.old) page.now) }
    ensures count { count.new ≡ value_or read_count (page_entries (length out.old) page.now) 0 }
    ensures next { next.new
        ≡ value_or (λ _. next_off page.now) (page_entries (length out.old) page.now) 0 }
    ensures padded { padded.new
        ≡ value_or (λ _. page_padded page.now) (page_entries (length out.old) page.now) 0 }
{
    ouriscado::ouriscado_sh_page_decode_slice_into(page, out, count, next, padded)
}

#[unsafe(no_mangle)]
pub extern "C" fn ouriscado_sh_page_try_append(page: &mut [u8], fk: u64, appended: &mut bool) -> u32
    ensures number { result ≡ refusal_of (append_spot page.old fk) }
    ensures bytes { page.new ≡ after_append page.old (append_spot page.old fk) }
    ensures appended { appended.new ≡ value_or has_spot (append_spot page.old fk) false }
{
    ouriscado::ouriscado_sh_page_try_append(page, fk, appended)
}

#[unsafe(no_mangle)]
pub extern "C" fn ouriscado_sh_page_write_stream(
    page: &mut [u8],
    fks: &[u64],
    len: &mut usize,
) -> u32
    ensures number { result ≡ refusal_of (write_stream page.old fks.now) }
    ensures bytes { page.new
        ≡ after_write_stream page.old fks.now (write_stream page.old fks.now) }
    ensures len { len.new ≡ value_or (λ x. x) (write_stream page.old fks.now) 0 }
{
    ouriscado::ouriscado_sh_page_write_stream(page, fks, len)
}
