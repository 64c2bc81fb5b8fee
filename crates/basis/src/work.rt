// The working memory that is lent to every call.
ghost use Rattle.std.specs.Prelude.{◌≡◌, ◌≤◌, length, replicate};
ghost use Rattle.grammar.specs.Limits.{Limits};
ghost use Rattle.grammar.specs.Calls.{work_after};

// Clears lent words.
pub fn clear(words: &mut [u32])
    ensures { words.new ≡ replicate (length words.old) 0 }
{
    words.fill(0);
}

// Clears the first words, which a call needs.
#[tactic(auto, unfolding(grammar::specs::Calls::work_after, grammar::specs::Calls::work_too_short))]
pub fn clear_work(words: usize, work: &mut [u32])
    requires { words ≤ length work.old }
    ensures { (limits : Limits) → limits.words ≡ words → work.new ≡ work_after limits work.old }
{
    clear(&mut work[..words]);
}
