// The text of what a load check answers.
ghost use Rattle.text.specs.Text.{Puts};
ghost use Rattle.recorded_answer.specs.loads.{load_text};

use text::Text;

pub fn put_load(list: &[u8], text: &mut Text)
    ensures { Puts (load_text list.now) text.old.bytes text.old.len text.new.bytes text.new.len }
{
    let checked = load::check::load_check(list);
    text.put_after_blank(u64::from(refusal::number_of(checked)));
    text.put_after_blank(checked.unwrap_or(0));
}
