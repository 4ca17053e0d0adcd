//! Messages that a step would say twice to a client.

ghost use Rattle.std.specs.Prelude.{◌≡◌, ◌<◌, true, length};
ghost use Rattle.std.specs.List.{remove};
ghost use Rattle.session_model.specs.Answering.{says_same};
ghost use Rattle.session_events.specs.Dropping.{is_said, SaysAgain, DropsSaid};

use session_model::Effect;

/// Whether two effects say one text to one client.
fn says_same(effect: &Effect, other: &Effect) -> bool
    ensures { result ≡ says_same effect.now other.now }
{
    match effect {
        Effect::Say(client, text) => match other {
            Effect::Say(to, said) => *client == *to && text.as_slice() == said.as_slice(),
            _ => false,
        },
        _ => false,
    }
}

/// Whether one of the earlier effects says the same text to the same client.
fn is_said(said: &[Effect], effect: &Effect) -> bool
    ensures { result ≡ is_said said.now effect.now }
{
    said.iter().any(|other| says_same(effect, other))
}

/// Whether the effect at `place` says what an effect between two other places says.
fn says_again(effects: &[Effect], from: usize, to: usize, place: usize) -> bool
    ensures there { result ≡ true → place < length effects.now }
    ensures again { SaysAgain effects.now from to place result }
{
    if from <= to && to <= effects.len() && place < effects.len() {
        is_said(&effects[from..to], &effects[place])
    } else {
        false
    }
}

/// Removes the effect at a place.
fn remove_at(effects: &mut Vec<Effect>, place: usize)
    requires { place < length effects.old.items }
    ensures { effects.new.items ≡ remove effects.old.items place }
{
    let _effect = effects.remove(place);
}

/// Removes each effect after these two places that says what an effect between them says.
pub fn drop_said(effects: &mut Vec<Effect>, from: usize, to: usize)
    ensures { DropsSaid from to effects.old.items effects.new.items }
{
    let count = effects.len();
    let mut place = to;
    for turn in to..count {
        if says_again(effects, from, to, place) {
            remove_at(effects, place);
        } else {
            place += 1;
        }
    }
}
