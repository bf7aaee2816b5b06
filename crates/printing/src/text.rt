// What has a text, and how several are written.
ghost use Rattle.std.specs.Prelude.{ℕ, List};
ghost use Rattle.std.specs.List.{flat_map};
ghost use Rattle.printing.specs.Pages.{EndFits, Wrote};

use crate::page::Page;

// Not `Display`: no clause keeps its `fmt` from failing, and printing fails only where the buffer is too short.
pub(crate) trait Text {
    ghost text: { Self → List ℕ };

    // Writes the text.
    fn write(&self, page: &mut Page)
        requires { EndFits page.old (text self.now) }
        ensures { Wrote page.old (text self.now) page.new };
}

// Writes the texts, one after another.
#[tactic(auto, using(std::proofs::lemmas::Grind::common_steps, crate::proofs::Written::in_turn))]
pub(crate) fn write_all<T: Text>(items: &[T], page: &mut Page)
    requires { EndFits page.old (flat_map T.text items.now) }
    ensures { Wrote page.old (flat_map T.text items.now) page.new }
{
    for item in items {
        item.write(page);
    }
}
