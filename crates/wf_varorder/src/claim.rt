//! What an action claims of the others.
ghost use Rattle.std.specs.Prelude.{◌≡◌, option_map};
ghost use Rattle.wf_standing.specs.UsesSeen.{uses_seen};
ghost use Rattle.wf_standing.specs.KnownSeen.{whole_seen};
ghost use Rattle.wf_standing.specs.Seen.{standing_tree};
ghost use Rattle.wf_varorder.specs.Pairs.{are_settled, clashes, concerns, reads, reads_if, tracks, writes};
ghost use Rattle.wf_varorder.specs.Seen.{claim_tree};

use wf_standing::{Known, Site, Standing, Uses, is_response};
use wf_val::Text;

/// What an action claims of the others, which they offend unless they are ordered with it or exclude it.
#[derive(Clone, Copy)]
pub(crate) enum Claim<'a> {
    /// It writes the variable: who reads or writes it too is concerned.
    Writes(&'a Text),
    /// It ends the run: all are concerned but those that contain it.
    Ends,
    /// It is the response: all other Responses are concerned.
    Answers,
}

fn reads_if(uses: Option<&Uses<'_>>, name: &Text) -> bool
    ensures { result ≡ reads_if (option_map (λ u. uses_seen u.now) uses.entry) name.now }
{
    match uses {
        None => false,
        Some(uses) => uses.reads.contains(name),
    }
}

fn reads_at(known: &Known<'_, '_>, site: Site, name: &Text) -> bool
    ensures { result ≡ reads_if ((whole_seen known.now).uses site) name.now }
{
    reads_if(known.uses(site), name)
}

fn writes(known: &Known<'_, '_>, name: &Text, action: &Standing<'_>) -> bool
    ensures { result ≡ writes (whole_seen known.now) name.now (standing_tree action.now) }
{
    match known.uses(Site::Inputs(action.action.number)) {
        None => false,
        Some(uses) => uses.writes.contains(name),
    }
}

fn reads(known: &Known<'_, '_>, name: &Text, action: &Standing<'_>) -> bool
    ensures { result ≡ reads (whole_seen known.now) name.now (standing_tree action.now) }
{
    let number = action.action.number;
    reads_at(known, Site::Inputs(number), name)
        || reads_at(known, Site::Items(number), name)
        || reads_at(known, Site::Test(number), name)
}

fn tracks(known: &Known<'_, '_>, name: &Text, action: &Standing<'_>) -> bool
    ensures { result ≡ tracks (whole_seen known.now) name.now (standing_tree action.now) }
{
    reads_at(known, Site::Tracked(action.action.number), name)
}

fn are_settled(known: &Known<'_, '_>, one: &Standing<'_>, other: &Standing<'_>) -> bool
    ensures { result ≡ are_settled (whole_seen known.now) (standing_tree one.now) (standing_tree other.now) }
{
    known.before(one, other) || known.before(other, one) || known.excludes(one, other)
}

impl Claim<'_> {
    fn concerns(self, known: &Known<'_, '_>, claimant: &Standing<'_>, other: &Standing<'_>) -> bool
        ensures { result ≡ concerns (whole_seen known.now) (claim_tree self.entry) (standing_tree claimant.now) (standing_tree other.now) }
    {
        match self {
            Claim::Writes(name) => {
                writes(known, name, other)
                    || tracks(known, name, other)
                    || (reads(known, name, other) && !known.contains(other, claimant))
            }
            Claim::Ends => !known.contains(other, claimant),
            Claim::Answers => is_response(&other.action.kind),
        }
    }

    /// Whether the other action offends what the claimant claims.
    pub(crate) fn clashes(
        self,
        known: &Known<'_, '_>,
        claimant: &Standing<'_>,
        other: &Standing<'_>,
    ) -> bool
        ensures { result ≡ clashes (whole_seen known.now) (claim_tree self.entry) (standing_tree claimant.now) (standing_tree other.now) }
    {
        claimant.action.number != other.action.number
            && !are_settled(known, claimant, other)
            && self.concerns(known, claimant, other)
    }
}
