// The tags of XML text, as places.
ghost use Rattle.std.specs.Prelude.{◌≡◌, ◌≤◌, ◌<◌, length, drop};
ghost use Rattle.grammar.specs.ReadText.{is_white, ends_name, name_front, past_name, past_white, end_tag, ended_by, element_end};
ghost use Rattle.documents.specs.TextSteps.{ends_tag, Forward, NameEnd, FrontSays, TagSays};

use grammar::Refusal;

const LESS_THAN: u8 = b'<';

const SLASH: u8 = b'/';

const GREATER_THAN: u8 = b'>';

// A tag of a text: where its name begins and ends, and then where the text goes on behind it.
#[derive(Clone, Copy)]
pub enum Tag {
    // A start tag, which leaves the element open, or an empty-element tag, which does not.
    Element(usize, usize, usize, bool),
    // An end tag.
    End(usize, usize, usize),
}

// Space, tab, carriage return, line feed.
#[tactic(auto, unfolding(grammar::specs::ReadText::is_white))]
fn is_white(b: u8) -> bool
    ensures { result ≡ is_white b }
{
    b == b' ' || b == b'\t' || b == b'\r' || b == b'\n'
}

// White space, / or >.
#[tactic(auto, unfolding(grammar::specs::ReadText::ends_name))]
fn ends_name(b: u8) -> bool
    ensures { result ≡ ends_name b }
{
    is_white(b) || b == SLASH || b == GREATER_THAN
}

// The first place from here on that has no white space.
fn past_white(s: &[u8], at: usize) -> usize
    requires { at ≤ length s.now }
    ensures { Forward s.now at (past_white (drop at s.now)) result }
{
    for i in at..s.len() {
        if !is_white(s[i]) {
            return i;
        }
    }
    s.len()
}

// Where the name that begins here ends.
fn name_end(s: &[u8], from: usize) -> usize
    requires { from ≤ length s.now }
    ensures { NameEnd s.now from result }
{
    for i in from..s.len() {
        if ends_name(s[i]) {
            return i;
        }
    }
    s.len()
}

// Whether > stands here.
fn ends_tag(s: &[u8], at: usize) -> bool
    ensures { result ≡ ends_tag s.now at }
{
    at < s.len() && s[at] == GREATER_THAN
}

// An end tag, whose name begins here.
fn end_tag(s: &[u8], from: usize) -> Result<Tag, Refusal>
    requires { from ≤ length s.now }
    ensures { FrontSays s.now from
        (ended_by (end_tag (name_front (drop from s.now))) (past_white (past_name (drop from s.now)))) result }
{
    let to = name_end(s, from);
    let last = past_white(s, to);
    if ends_tag(s, last) {
        return Ok(Tag::End(from, to, last + 1));
    }
    Err(Refusal::BadText)
}

// A start tag or an empty-element tag, whose name begins here.
fn element_tag(s: &[u8], from: usize) -> Result<Tag, Refusal>
    requires { from ≤ length s.now }
    ensures { FrontSays s.now from
        (element_end (name_front (drop from s.now)) (past_white (past_name (drop from s.now)))) result }
{
    let to = name_end(s, from);
    let last = past_white(s, to);
    if ends_tag(s, last) {
        return Ok(Tag::Element(from, to, last + 1, true));
    }
    if s.len() <= last {
        return Err(Refusal::BadText);
    }
    if s[last] != SLASH {
        return Err(Refusal::BadText);
    }
    if ends_tag(s, last + 1) {
        return Ok(Tag::Element(from, to, last + 2, false));
    }
    Err(Refusal::BadText)
}

// The next tag from a place on, or none where only white space is left. Any other byte outside tags is refused, and so is a tag that is
// not whole.
pub fn tag_at(s: &[u8], at: usize) -> Result<Option<Tag>, Refusal>
    requires { at ≤ length s.now }
    ensures { TagSays s.now at result }
{
    let first = past_white(s, at);
    if s.len() <= first {
        return Ok(None);
    }
    if s[first] != LESS_THAN {
        return Err(Refusal::BadText);
    }
    let inside = first + 1;
    if s.len() <= inside {
        return Err(Refusal::BadText);
    }
    if s[inside] == SLASH {
        return Ok(Some(end_tag(s, inside + 1)?));
    }
    Ok(Some(element_tag(s, inside)?))
}
