// What a true certificate shows.
ghost use Rattle.auction_check.specs.True.{TrueCertificateDecides};

use auction_law::chosen_is_nearest;

/// The price of a true certificate that trades is one of the grid that meets the three conditions, and no price that is nearer to the
/// reference meets them.
pub fn true_certificate_decides()
    ensures { TrueCertificateDecides }
{
    chosen_is_nearest();
}
