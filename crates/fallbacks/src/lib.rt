// The rules D and E: the fallbacks, cast behind the skips of their window.
#![tactic(auto)]

ghost use Rattle.std.specs.Prelude.{◌≡◌, not, ◌&&◌, ◌||◌};
ghost use Rattle.rulebook.specs.Ledger.{none, own_cell};
ghost use Rattle.rulebook.specs.Rules.{window_open, cast_fallback, rule_d, may_skip_fallback, cast_skip_fallback, rule_e};
ghost use Rattle.record.specs.Layout.{ledger_of};
ghost use Rattle.voter.specs.Outbox.{state_in};
ghost use Rattle.voter.specs.Voting.{CastingAt, Onward};
ghost use Rattle.pool.specs.Weighing.{Carded};
ghost use Rattle.fallbacks.specs.Fallbacks.{add_notar_fallback, add_skip_fallback};
ghost use Rattle.fallbacks.specs.UnderWay.{VotingAt, WeighedAt};

use candidates::{fallback_block, skip_weights};
use own_votes::{may_fallback, may_skip_fallback, window_open};
use record::own_cell;
use rulebook::{Slot, VoteKind};
use voter::{cast_skips, cast_vote, no_initial};

// D's last cast: without an own final, notar-fallback b unless already cast. Where b has D's weights it finds a place.
fn add_notar_fallback(rec: &mut [u64], outbox: &mut [u64], at: usize, s: Slot, b: u64) -> usize
    requires { WeighedAt rec.old outbox.old at s.0 b }
    ensures { Onward rec.old outbox.old at rec.new outbox.new result (add_notar_fallback (state_in rec.old outbox.old at) s.0 b) }
{
    if may_fallback(own_cell(rec, s), b) {
        return cast_vote(rec, outbox, at, s, VoteKind::NotarFallback, b);
    }
    at
}

// D's casts for its block: skips for the window, then the fallback.
fn cast_fallback(rec: &mut [u64], outbox: &mut [u64], at: usize, s: Slot, b: u64) -> usize
    requires { WeighedAt rec.old outbox.old at s.0 b }
    ensures { Onward rec.old outbox.old at rec.new outbox.new result (cast_fallback (state_in rec.old outbox.old at) s.0 b) }
{
    let skipped = cast_skips(rec, outbox, at, s);
    add_notar_fallback(rec, outbox, skipped, s, b)
}

// D. Own initial vote present, and some block falls back: casts for the lowest.
pub fn rule_d(rec: &mut [u64], outbox: &mut [u64], at: usize, s: Slot) -> usize
    requires { VotingAt rec.old outbox.old at s.0 }
    ensures { Onward rec.old outbox.old at rec.new outbox.new result (rule_d (state_in rec.old outbox.old at) s.0) }
{
    if no_initial(own_cell(rec, s)) {
        return at;
    }
    let b = fallback_block(rec, s);
    if b == 0 {
        return at;
    }
    cast_fallback(rec, outbox, at, s, b)
}

// E's last cast: without an own final, skip-fallback unless cast.
fn add_skip_fallback(rec: &mut [u64], outbox: &mut [u64], at: usize, s: Slot) -> usize
    requires { CastingAt rec.old outbox.old at s.0 }
    ensures { Onward rec.old outbox.old at rec.new outbox.new result (add_skip_fallback (state_in rec.old outbox.old at) s.0) }
{
    if may_skip_fallback(own_cell(rec, s)) {
        return cast_vote(rec, outbox, at, s, VoteKind::SkipFallback, 0);
    }
    at
}

// E's casts: skips for the window, then the skip-fallback.
fn cast_skip_fallback(rec: &mut [u64], outbox: &mut [u64], at: usize, s: Slot) -> usize
    requires { CastingAt rec.old outbox.old at s.0 }
    ensures { Onward rec.old outbox.old at rec.new outbox.new result (cast_skip_fallback (state_in rec.old outbox.old at) s.0) }
{
    let made = cast_skips(rec, outbox, at, s);
    add_skip_fallback(rec, outbox, made, s)
}

// Rule E's first part: an own notar vote, and something that E would cast.
fn may_skip(rec: &[u64], s: Slot) -> bool
    requires { Carded rec.now s.0 }
    ensures { result ≡ (not (none (own_cell (ledger_of rec.now) s.0).notar) && (window_open (ledger_of rec.now) s.0 || may_skip_fallback (own_cell (ledger_of rec.now) s.0))) }
{
    let c = own_cell(rec, s);
    (c.notar != 0) & (window_open(rec, s) | may_skip_fallback(c))
}

// E. Own initial vote present and not skip, and the skip weights reach: casts.
pub fn rule_e(rec: &mut [u64], outbox: &mut [u64], at: usize, s: Slot) -> usize
    requires { VotingAt rec.old outbox.old at s.0 }
    ensures { Onward rec.old outbox.old at rec.new outbox.new result (rule_e (state_in rec.old outbox.old at) s.0) }
{
    if may_skip(rec, s) {
        if skip_weights(rec, s) {
            return cast_skip_fallback(rec, outbox, at, s);
        }
    }
    at
}
