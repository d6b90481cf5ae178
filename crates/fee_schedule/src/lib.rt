#![tactic(auto)]

ghost use Rattle.std.specs.Prelude.{◌≡◌, ◌<◌, length, if◌then◌else◌, Some, None, nat_lt};
ghost use Rattle.page_store.specs.Memory.{with_page_at};
ghost use Rattle.fee_schedule.specs.Fees.{line_count, fee_bytes, fee_at, FeeReadsBack, OtherFeesStay};

// A page of a fee schedule: lines of four bytes, each a fee in cents with its highest byte first.

// How many lines a page has.
pub fn line_count(page: &[u8]) -> usize
    ensures { result ≡ line_count (length page.now) }
{
    page.len() / 4
}

// Writes a fee into a line. False, as where a set has an item already, where the page has no such line, and then nothing changes.
pub fn write_fee(page: &mut [u8], line: usize, cents: u32) -> bool
    ensures answers { result ≡ nat_lt line (line_count (length page.old)) }
    ensures changes_this_line_only { page.new ≡ (if nat_lt line (line_count (length page.old)) then with_page_at 4 page.old line (fee_bytes cents) else page.old) }
{
    if line >= line_count(page) {
        return false;
    }
    write_line(page, line, &cents.to_be_bytes());
    true
}

fn write_line(page: &mut [u8], line: usize, bytes: &[u8])
    requires inside { line < line_count (length page.old) }
    requires size { length bytes.now ≡ 4 }
    ensures { page.new ≡ with_page_at 4 page.old line bytes.now }
{
    let at = line * 4;
    page[at..at + 4].copy_from_slice(bytes);
}

// The fee in a line; none where the page has no such line.
pub fn read_fee(page: &[u8], line: usize) -> Option<u32>
    ensures { result ≡ (if nat_lt line (line_count (length page.now)) then Some (fee_at page.now line) else None) }
{
    if line >= line_count(page) {
        return None;
    }
    let bytes = page[line * 4..].first_chunk()?;
    Some(u32::from_be_bytes(*bytes))
}

// What the layout of a page comes to. It does nothing; its contract is the theorem.
pub fn fees_stand_in_their_lines()
    ensures fee_reads_back { FeeReadsBack }
    ensures other_fees_stay { OtherFeesStay }
{}
