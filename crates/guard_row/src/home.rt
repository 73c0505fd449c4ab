//! What the count of a guard row says of the sectors: which one is home, and which one is void.
ghost use Rattle.std.specs.Prelude.{◌≡◌};
ghost use Rattle.guard_row.specs.Home as says;

use flash_traits::Region;

/// The home sector at a guard count: the one whose log counts first. None where a sector is void.
pub fn home_of(count: u16) -> Option<Region>
    ensures { result ≡ says.home_of count }
{
    match count % 4 {
        0 => Some(Region::S0),
        2 => Some(Region::S1),
        _ => None,
    }
}

/// The void sector at a guard count, whose words mean nothing. None where there is a home.
pub fn void_of(count: u16) -> Option<Region>
    ensures { result ≡ says.void_of count }
{
    match count % 4 {
        1 => Some(Region::S0),
        3 => Some(Region::S1),
        _ => None,
    }
}

/// The other one of the two sectors.
pub fn sector_beside(region: Region) -> Region
    ensures { result ≡ says.sector_beside region }
{
    match region {
        Region::S0 => Region::S1,
        Region::S1 => Region::S0,
        Region::Guard => Region::Guard,
    }
}

/// The home sector at a guard count, or the one that isn't void.
pub fn first_sector(count: u16) -> Region
    ensures { result ≡ says.first_of count }
{
    match (home_of(count), void_of(count)) {
        (Some(home), _) => home,
        (None, Some(void)) => sector_beside(void),
        (None, None) => Region::S0,
    }
}

/// The sector beside home at a guard count, or the void one.
pub fn second_sector(count: u16) -> Region
    ensures { result ≡ says.second_of count }
{
    sector_beside(first_sector(count))
}
