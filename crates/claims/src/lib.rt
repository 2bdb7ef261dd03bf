// A claimed set judged: does it contain the required labels, do the trees agree on it, and is it as large as the largest set?
//
// No public function has a `requires`.
#![tactic(auto)]

ghost use Rattle.std.specs.Prelude.{◌≡◌};
ghost use Rattle.queries.specs.Query.{task};
ghost use Rattle.mast.specs.Compare.{Comparison, compared_parts};
ghost use Rattle.claims.specs.Judge.{verdict_on, judge, claim_of};

use mast::{Compared, Denied};
use pairs::Options;
use trees::{Body, Reason, Refusal};

// The verdict on a claim whose labels both trees have: 13, 14, 15, or that it passes.
fn verdict(c: Compared) -> Result<usize, Denied>
    ensures { (x : Comparison) → c ≡ compared_parts x → result ≡ claim_of (verdict_on x) }
{
    let missing = c.missing;
    if let Some(place) = missing {
        return Err(Denied::Refused(Refusal {
            reason: Reason::ClaimLacks,
            body: Body::K,
            place,
        }));
    }
    let clash = c.clash;
    if let Some(named) = clash {
        let claim_disagreement = Refusal {
            reason: Reason::ClaimDisagrees,
            body: Body::C,
            place: 0,
        };
        return Err(Denied::Naming(claim_disagreement, named));
    }
    if c.count < c.size {
        return Err(Denied::Refused(Refusal {
            reason: Reason::ClaimSmall,
            body: Body::C,
            place: 0,
        }));
    }
    Ok(c.count)
}

// Whether the claimed set contains every required label, the trees agree on it and no larger such set exists: its size; or the first
// refusal, 8 with three required labels and 14 with three claimed ones. Refusals come in the order S, T, 12 if the options are strict, K, C,
// 6 or 7 of K, 8, 6 or 7 of C, 13, 14, 15.
pub fn judge(
    options: Options,
    first: &[u8],
    second: &[u8],
    required: &[u8],
    claim: &[u8],
) -> Result<usize, Denied>
    ensures { result ≡ claim_of
        (judge (task options first.now second.now required.now) claim.now) }
{
    let compared = mast::compare(options, first, second, required, claim)?;
    verdict(compared)
}
