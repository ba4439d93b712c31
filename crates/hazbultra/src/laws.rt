//! Laws of mailboxes as plain Rust makes them by default and by `FastLast`, and samples of what this crate defines.
//! The functions compute nothing: their contracts are the laws and the samples.
ghost use Rattle.std.specs.Prelude.{ℕ, ◌≡◌, ◌≤◌, ◌<◌, ◌+◌, ◌-◌, ◌*◌, ◌^◌, [], List, None, Some, false, length, true};
ghost use Rattle.rand_chacha.specs.ChaCha.{of_seed};
ghost use Rattle.mb_quorum.specs.declared.table.TableName.TheVariants.{Bits, Middle};
ghost use Rattle.mb_claim.specs.{Vocabulary.{most_accesses}, declared.layout.Layout.{Layout}};
ghost use Rattle.mb_mailbox.specs.Vocabulary.{MailboxView, plan_at};
ghost use Rattle.mb_world.specs.Vocabulary.{shaped_plan};
ghost use Rattle.hazbultra.specs.{Calls.{source_of, words_of}, Defaults.{by_default, by_fast_last}};
ghost use Rattle.hazbultra.specs.{Samples.{asked}, Lending.{handle_to, leading_to}};
ghost use Rattle.hazbultra.specs.{Refusals.{plan_asked, refusal_of}, Zeros.{zeros}};
ghost use Rattle.hazbultra.specs.declared.codes.TheConstants.{ALL_GIVEN, BAD_HANDLE, CLOSED, DONE, FULL, LINKED};
ghost use Rattle.hazbultra.specs.declared.codes.TheConstants.{MISSING, NOT_THERE, NO_MEMORY, OTHER_MAILBOX};
ghost use Rattle.hazbultra.specs.declared.handle.{Handle.{Handle}, block.Block.{Block}};
ghost use Rattle.hazbultra.specs.declared.thing.Thing.{Thing};

use mb_mailbox::laws::full_budgets_suffice;

/// The most accesses of a claim, with the load of its link and that of its item: 3 by default, and with `FastLast` what
/// the clauses say for 1, 2, 4, 16 and 64 consumers. A poll with this budget is never spent (`unspent` of `hz_poll`).
pub fn whole_items_take_few_accesses()
    ensures exchange { (m : MailboxView) (p n k : ℕ) → plan_at m ≡ by_default p n k
        → most_accesses m.claims.layout + 2 ≡ 3 }
    ensures one { (m : MailboxView) (p k : ℕ) → plan_at m ≡ by_fast_last p 1 k
        → most_accesses m.claims.layout + 2 ≡ 31 }
    ensures two { (m : MailboxView) (p k : ℕ) → plan_at m ≡ by_fast_last p 2 k
        → most_accesses m.claims.layout + 2 ≡ 47 }
    ensures four { (m : MailboxView) (p k : ℕ) → plan_at m ≡ by_fast_last p 4 k
        → most_accesses m.claims.layout + 2 ≡ 63 }
    ensures sixteen { (m : MailboxView) (p k : ℕ) → plan_at m ≡ by_fast_last p 16 k
        → most_accesses m.claims.layout + 2 ≡ 95 }
    ensures most { (m : MailboxView) (p k : ℕ) → plan_at m ≡ by_fast_last p 64 k
        → most_accesses m.claims.layout + 2 ≡ 127 }

    // By default each cell has a last object alone. By `FastLast` two ratifiers and four pairs come before it.
    ensures alone { (p n k : ℕ) → length (by_default p n k).claims.kinds ≡ 1 }
    ensures objects { (p n k : ℕ) → length (by_fast_last p n k).claims.kinds ≡ 11 }
{}

/// A take with the budget 2^64 - 1, as the `take` of plain Rust makes it, is never spent (`unspent` of `hz_take`). Setups
/// have at most 2^24 cells (`accepted` of `hz_mailbox_new`).
pub fn takes_need_no_budget()
    ensures { (m : MailboxView) → m.cells.size.cells ≤ 2 ^ 24
        → (most_accesses m.claims.layout + 1) * (m.cells.size.cells + 1) < 2 ^ 64 - 1 }
{
    full_budgets_suffice();
}

/// The numbers of the codes in `bindings/c/hazbultra.h`, but for those that `answer_told` and `setup_code` have.
pub fn codes_have_their_numbers()
    ensures done { DONE ≡ 0 }
    ensures puts { (LINKED ≡ 8) × (FULL ≡ 9) × (CLOSED ≡ 10) }
    ensures refusals { (NO_MEMORY ≡ 16) × (BAD_HANDLE ≡ 17) × (ALL_GIVEN ≡ 18) × (MISSING ≡ 19)
        × (OTHER_MAILBOX ≡ 20) × (NOT_THERE ≡ 21) }
{}

/// What C asks for by a setup: samples. With no pairs, and a last object alone, each claim is one exchange, whatever
/// the table.
pub fn sample_setups()
    ensures exchanges { plan_asked (asked 2 0 false true) Middle
        ≡ shaped_plan (record { fast = false; last = true }) 3 4 8 0 Bits }
    ensures let_in { refusal_of (asked 2 0 false true) ≡ None }

    // With a fast path 0 pairs are too few (36).
    ensures no_pairs { refusal_of (asked 2 0 true true) ≡ Some 36 }
{}

/// What random words a consumer draws: samples. If a claim makes up to six accesses, they come from a generator. If a
/// claim makes one, there is no generator: all words are 0, and no word is 1.
pub fn sample_sources()
    ensures drawn { (layout : Layout) (seed : List ℕ) → most_accesses layout ≡ 6
        → source_of layout seed 3 ≡ Some (record (of_seed seed) { stream = 3 }) }
    ensures alone { (layout : Layout) (seed : List ℕ) → most_accesses layout ≡ 1
        → source_of layout seed 3 ≡ None }
    ensures zero { (words_of None).u64_after [] ≡ 0 }
    ensures not_one { zeros.u64_after [] ≡ 1 → ⊥ }
{}

/// Samples of what a handle leads to once its borrow has ended: what was left there last, at the same address.
pub fn sample_handles()
    ensures last { (b : Block) (x y : Thing) → (leading_to (leading_to b x) y).thing ≡ Some y }
    ensures address { (b : Block) (x : Thing) → (leading_to b x).at ≡ b.at }
    ensures full { (h : Handle) (x : Thing) → (handle_to h x).block ≡ leading_to h.block x }
    ensures not_empty { (h : Handle) (x : Thing) → (handle_to h x).block.thing ≡ None → ⊥ }
{}
