//! A region's class and holder in the number of a page.
ghost use Rattle.std.specs.Prelude.{◌≡◌, ◌*◌, ◌/◌, ◌<◌, ◌≤◌, ◌^◌};
ghost use Rattle.list_facts.specs.Codes.{code_of, of_code};
ghost use Rattle.region_book.specs.Larges.{IsHolder, packed, region_at};

use page_map::PAGES;
use size_classes::PAGE_BYTES;
use space_model::Region;

/// How many classes are told apart in a number: a class is below this.
const CLASS_SPAN: u32 = 256;

/// A region's class and holder in one number.
pub fn packed(region: Region) -> u32
    requires holder { IsHolder region.holder }
    ensures { result ≡ packed region }
{
    u32::from(region.class) + CLASS_SPAN * code_of(region.holder) as u32
}

/// The region at a page that has such a number.
pub fn region_at(page: u64, number: u32) -> Region
    requires page { page < PAGES }
    ensures { result ≡ region_at page number }
{
    Region {
        addr: PAGE_BYTES * page,
        class: (number % CLASS_SPAN) as u8,
        holder: (number / CLASS_SPAN).checked_sub(1),
    }
}

/// A holder as a number: 0 for nobody, and else one more than the client's.
pub fn code_of(holder: Option<u32>) -> u64
    ensures code { result ≡ code_of holder }
    ensures bound { result ≤ 2 ^ 32 }
    ensures held { IsHolder holder → result ≤ 32 }
{
    match holder {
        Some(client) => u64::from(client) + 1,
        None => 0,
    }
}
