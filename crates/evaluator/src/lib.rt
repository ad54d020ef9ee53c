// One expression evaluated: by its kind, each part into its own part of a lent slice. A feedback's
// defining part is evaluated again until the value is unchanged; the rounds ask for its value
// alone, and so leave a delay's part out.
#![tactic(auto)]

ghost use Rattle.std.specs.Prelude.{◌≡◌, Bool, false, List, ℕ, ◌≤◌, get_or};
ghost use Rattle.records.specs.Words.{count};
ghost use Rattle.records.specs.Kinds.{expression, name, tuple, first, second, let_in, feedback, if_matches, delay};
ghost use Rattle.records.specs.Says.{kind_at};
ghost use Rattle.evaluator.specs.Evaluating.{EvaluatingIn, Evaluated, SettlingIn, Settled};
ghost use Rattle.evaluator.specs.Chains.{PartEvaluatingIn, PartEvaluated, ChainEnded};

use records::{Kind, Sheet, VALUE_BYTES, WORD_A, WORD_B, WORD_C, WORD_D, WidthTable};
use values::{
    Room, all_defined, choose_value, copy_part, copy_value, enter_value, hold_leaves, put,
    read_leaves, stands_at,
};

// The sheet whose expressions are evaluated, and the table of the widths of their values.
#[derive(Drop)]
pub struct Evaluator<'a> {
    pub sheet: &'a Sheet<'a>,
    pub widths: &'a WidthTable,
}

// Where a chain of first and second parts ends, and from which leaf on the value there has what is
// asked for.
#[derive(Clone, Copy)]
struct ChainEnd {
    rec: usize,
    from: usize,
}

impl Evaluator<'_> {
    // Copies the value of a name, and nothing else changes.
    fn copy_name(&self, env: &[u8], names: usize, rec: usize, out: &mut [u8])
        requires { ((Γ : List ℕ) × EvaluatingIn self.now.sheet.now (count self.now.sheet.now) self.now.widths.now env.now names rec out.old Γ) × (kind_at self.now.sheet.now rec ≡ expression name) }
        ensures { (whole : Bool) (held fired : List ℕ) → Evaluated whole self.now.sheet.now (count self.now.sheet.now) self.now.widths.now env.now names rec held fired out.old env.now held fired out.new }
    {
        let k = self.sheet.word(rec, WORD_A);
        copy_value(env, names - 1 - k, out);
    }

    // Copies a part of the value of a name, from the leaf `from` on, and nothing else changes.
    fn copy_name_part(&self, env: &[u8], names: usize, rec: usize, from: usize, out: &mut [u8])
        requires { ((Γ : List ℕ) × PartEvaluatingIn self.now.sheet.now (count self.now.sheet.now) self.now.widths.now env.now names rec from out.old Γ) × (kind_at self.now.sheet.now rec ≡ expression name) }
        ensures { (whole : Bool) (held fired : List ℕ) → PartEvaluated whole self.now.sheet.now (count self.now.sheet.now) self.now.widths.now env.now names rec from held fired out.old env.now held fired out.new }
    {
        let k = self.sheet.word(rec, WORD_A);
        copy_part(env, names - 1 - k, from, out);
    }

    // The end of the chain of first and second parts at a record, of whose value the leaves from
    // `from` on are asked for. What is no first or second part is the end of its own.
    fn chain_end(&self, rec: usize, from: usize) -> ChainEnd
        requires { ((env : List ℕ) × (names : ℕ) × (out : List ℕ) × (Γ : List ℕ) × EvaluatingIn self.now.sheet.now (count self.now.sheet.now) self.now.widths.now env names rec out Γ) × (from ≤ get_or self.now.widths.now rec 0) }
        ensures { ChainEnded self.now.sheet.now (count self.now.sheet.now) self.now.widths.now rec from result.rec result.from }
    {
        match self.sheet.kind(rec) {
            Kind::First => self.chain_end(self.sheet.word(rec, WORD_A), from),
            Kind::Second => {
                let a = self.sheet.word(rec, WORD_A);
                let before = usize::from(self.widths[a]) - usize::from(self.widths[rec]);
                self.chain_end(a, from + before)
            }
            _ => ChainEnd { rec, from },
        }
    }

    // Evaluates an expression: its value goes to `out` and, where `whole` is true, its delays' next
    // values and the numbers of its IFs to their tables in the room. Where only the value is
    // wanted, these tables stay as they are, and a delay's part, which says nothing of this cycle's
    // value, is not evaluated.
    #[cycle(evaluation)]
    pub fn eval(&self, room: &mut Room, names: usize, rec: usize, out: &mut [u8], whole: bool)
        requires { (Γ : List ℕ) × EvaluatingIn self.now.sheet.now (count self.now.sheet.now) self.now.widths.now room.old.env names rec out.old Γ }
        ensures { Evaluated whole self.now.sheet.now (count self.now.sheet.now) self.now.widths.now room.old.env names rec room.old.held room.old.fired out.old room.new.env room.new.held room.new.fired out.new }
    {
        match self.sheet.kind(rec) {
            Kind::Constant => read_leaves(self.sheet, self.sheet.word(rec, WORD_B), out),
            Kind::Name => self.copy_name(&room.env, names, rec, out),
            Kind::Pair => self.of_pair(room, names, rec, out, whole),
            Kind::First => self.of_first(room, names, rec, out, whole),
            Kind::Second => self.of_second(room, names, rec, out, whole),
            Kind::Let => self.of_let(room, names, rec, out, whole),
            Kind::Feedback => self.of_feedback(room, names, rec, out, whole),
            Kind::If => self.of_if(room, names, rec, out, whole),
            _ => self.of_delay(room, names, rec, out, whole),
        }
    }

    // Evaluates a part of an expression, which most often is a name or a constant: these at once,
    // every other kind by `eval`.
    #[cycle(evaluation)]
    fn eval_part(&self, room: &mut Room, names: usize, rec: usize, out: &mut [u8], whole: bool)
        requires { (Γ : List ℕ) × EvaluatingIn self.now.sheet.now (count self.now.sheet.now) self.now.widths.now room.old.env names rec out.old Γ }
        ensures { Evaluated whole self.now.sheet.now (count self.now.sheet.now) self.now.widths.now room.old.env names rec room.old.held room.old.fired out.old room.new.env room.new.held room.new.fired out.new }
    {
        match self.sheet.kind(rec) {
            Kind::Constant => read_leaves(self.sheet, self.sheet.word(rec, WORD_B), out),
            Kind::Name => self.copy_name(&room.env, names, rec, out),
            _ => self.eval(room, names, rec, out, whole),
        }
    }

    #[cycle(evaluation)]
    fn of_pair(&self, room: &mut Room, names: usize, rec: usize, out: &mut [u8], whole: bool)
        requires { ((Γ : List ℕ) × EvaluatingIn self.now.sheet.now (count self.now.sheet.now) self.now.widths.now room.old.env names rec out.old Γ) × (kind_at self.now.sheet.now rec ≡ expression tuple) }
        ensures { Evaluated whole self.now.sheet.now (count self.now.sheet.now) self.now.widths.now room.old.env names rec room.old.held room.old.fired out.old room.new.env room.new.held room.new.fired out.new }
    {
        let left = self.sheet.word(rec, WORD_A);
        let w = usize::from(self.widths[left]);
        self.eval_part(room, names, left, &mut out[0..w], whole);
        let right = self.sheet.word(rec, WORD_B);
        self.eval_part(room, names, right, &mut out[w..], whole);
    }

    #[cycle(evaluation)]
    fn of_first(&self, room: &mut Room, names: usize, rec: usize, out: &mut [u8], whole: bool)
        requires { ((Γ : List ℕ) × EvaluatingIn self.now.sheet.now (count self.now.sheet.now) self.now.widths.now room.old.env names rec out.old Γ) × (kind_at self.now.sheet.now rec ≡ expression first) }
        ensures { Evaluated whole self.now.sheet.now (count self.now.sheet.now) self.now.widths.now room.old.env names rec room.old.held room.old.fired out.old room.new.env room.new.held room.new.fired out.new }
    {
        let a = self.sheet.word(rec, WORD_A);
        self.eval_from(room, names, a, out, whole, 0);
    }

    #[cycle(evaluation)]
    fn of_second(&self, room: &mut Room, names: usize, rec: usize, out: &mut [u8], whole: bool)
        requires { ((Γ : List ℕ) × EvaluatingIn self.now.sheet.now (count self.now.sheet.now) self.now.widths.now room.old.env names rec out.old Γ) × (kind_at self.now.sheet.now rec ≡ expression second) }
        ensures { Evaluated whole self.now.sheet.now (count self.now.sheet.now) self.now.widths.now room.old.env names rec room.old.held room.old.fired out.old room.new.env room.new.held room.new.fired out.new }
    {
        let a = self.sheet.word(rec, WORD_A);
        let from = usize::from(self.widths[a]) - usize::from(self.widths[rec]);
        self.eval_from(room, names, a, out, whole, from);
    }

    // Evaluates an expression for a part of its value, from the leaf `from` on. A chain of first
    // and second parts is one part of the value at its end, and is read there: in place where the
    // end is a name, and else in the one room that the end is evaluated into.
    #[cycle(evaluation)]
    fn eval_from(
        &self,
        room: &mut Room,
        names: usize,
        rec: usize,
        out: &mut [u8],
        whole: bool,
        from: usize,
    )
        requires { (Γ : List ℕ) × PartEvaluatingIn self.now.sheet.now (count self.now.sheet.now) self.now.widths.now room.old.env names rec from out.old Γ }
        ensures { PartEvaluated whole self.now.sheet.now (count self.now.sheet.now) self.now.widths.now room.old.env names rec from room.old.held room.old.fired out.old room.new.env room.new.held room.new.fired out.new }
    {
        let end = self.chain_end(rec, from);
        if let Kind::Name = self.sheet.kind(end.rec) {
            self.copy_name_part(&room.env, names, end.rec, end.from, out);
            return;
        }
        let w = usize::from(self.widths[end.rec]);
        let mut value = [0; VALUE_BYTES];
        self.eval_part(room, names, end.rec, &mut value[0..w], whole);
        put(&value[end.from..end.from + out.len()], out);
    }

    #[cycle(evaluation)]
    fn of_let(&self, room: &mut Room, names: usize, rec: usize, out: &mut [u8], whole: bool)
        requires { ((Γ : List ℕ) × EvaluatingIn self.now.sheet.now (count self.now.sheet.now) self.now.widths.now room.old.env names rec out.old Γ) × (kind_at self.now.sheet.now rec ≡ expression let_in) }
        ensures { Evaluated whole self.now.sheet.now (count self.now.sheet.now) self.now.widths.now room.old.env names rec room.old.held room.old.fired out.old room.new.env room.new.held room.new.fired out.new }
    {
        let a = self.sheet.word(rec, WORD_A);
        let w = usize::from(self.widths[a]);
        let mut value = [0; VALUE_BYTES];
        self.eval_part(room, names, a, &mut value[0..w], whole);
        enter_value(&mut room.env, names, &value[0..w]);
        let b = self.sheet.word(rec, WORD_B);
        self.eval_part(room, names + 1, b, out, whole);
    }

    #[cycle(evaluation)]
    fn of_feedback(&self, room: &mut Room, names: usize, rec: usize, out: &mut [u8], whole: bool)
        requires { ((Γ : List ℕ) × EvaluatingIn self.now.sheet.now (count self.now.sheet.now) self.now.widths.now room.old.env names rec out.old Γ) × (kind_at self.now.sheet.now rec ≡ expression feedback) }
        ensures { Evaluated whole self.now.sheet.now (count self.now.sheet.now) self.now.widths.now room.old.env names rec room.old.held room.old.fired out.old room.new.env room.new.held room.new.fired out.new }
    {
        let d = self.sheet.word(rec, WORD_B);
        let w = usize::from(self.widths[d]);
        let mut settled = [0; VALUE_BYTES];
        enter_value(&mut room.env, names, &settled[0..w]);
        self.hold_settled(room, names, d, &mut settled[0..w], whole);
        let b = self.sheet.word(rec, WORD_C);
        self.eval_part(room, names + 1, b, out, whole);
    }

    // Settles a feedback's name; then, where `whole` is true, evaluates its defining part there,
    // for the next values and numbers.
    #[cycle(evaluation)]
    fn hold_settled(&self, room: &mut Room, names: usize, d: usize, value: &mut [u8], whole: bool)
        requires { (t : ℕ) × (Γ : List ℕ) × SettlingIn self.now.sheet.now (count self.now.sheet.now) self.now.widths.now room.old.env names d value.old t Γ }
        ensures { Settled whole self.now.sheet.now (count self.now.sheet.now) self.now.widths.now room.old.env names d room.old.held room.old.fired value.old room.new.env room.new.held room.new.fired }
    {
        self.settle(room, names, d, value);
        if whole {
            self.eval_part(room, names + 1, d, value, true);
        }
    }

    // Evaluates a feedback's defining part, for its value alone, until it gives back unchanged what
    // the feedback's name holds, or every leaf is defined, which no further application changes.
    #[cycle(evaluation)]
    fn settle(&self, room: &mut Room, names: usize, d: usize, value: &mut [u8])
        requires { (t : ℕ) × (Γ : List ℕ) × SettlingIn self.now.sheet.now (count self.now.sheet.now) self.now.widths.now room.old.env names d value.old t Γ }
        ensures { Settled false self.now.sheet.now (count self.now.sheet.now) self.now.widths.now room.old.env names d room.old.held room.old.fired value.old room.new.env room.new.held room.new.fired }
    {
        self.eval_part(room, names + 1, d, value, false);
        if stands_at(&room.env, names, value) {
            return;
        }
        enter_value(&mut room.env, names, value);
        if all_defined(value) {
            return;
        }
        self.settle(room, names, d, value);
    }

    #[cycle(evaluation)]
    fn of_if(&self, room: &mut Room, names: usize, rec: usize, out: &mut [u8], whole: bool)
        requires { ((Γ : List ℕ) × EvaluatingIn self.now.sheet.now (count self.now.sheet.now) self.now.widths.now room.old.env names rec out.old Γ) × (kind_at self.now.sheet.now rec ≡ expression if_matches) }
        ensures { Evaluated whole self.now.sheet.now (count self.now.sheet.now) self.now.widths.now room.old.env names rec room.old.held room.old.fired out.old room.new.env room.new.held room.new.fired out.new }
    {
        let a = self.sheet.word(rec, WORD_A);
        let w = usize::from(self.widths[a]);
        let mut tested = [0; VALUE_BYTES];
        self.eval_part(room, names, a, &mut tested[0..w], whole);
        let b = self.sheet.word(rec, WORD_B);
        self.eval_part(room, names, b, out, whole);
        let other = self.sheet.word(rec, WORD_C);
        let all = out.len();
        let mut otherwise = [0; VALUE_BYTES];
        self.eval_part(room, names, other, &mut otherwise[0..all], whole);
        let p = self.sheet.word(rec, WORD_D);
        let fired = choose_value(
            self.sheet,
            self.widths,
            p,
            &tested[0..w],
            &otherwise[0..all],
            out,
        );
        if whole {
            room.fired[rec] = fired.unwrap_or(0) as u16;
        }
    }

    #[cycle(evaluation)]
    fn of_delay(&self, room: &mut Room, names: usize, rec: usize, out: &mut [u8], whole: bool)
        requires { ((Γ : List ℕ) × EvaluatingIn self.now.sheet.now (count self.now.sheet.now) self.now.widths.now room.old.env names rec out.old Γ) × (kind_at self.now.sheet.now rec ≡ expression delay) }
        ensures { Evaluated whole self.now.sheet.now (count self.now.sheet.now) self.now.widths.now room.old.env names rec room.old.held room.old.fired out.old room.new.env room.new.held room.new.fired out.new }
    {
        let first = self.sheet.word(rec, WORD_B);
        if !whole {
            read_leaves(self.sheet, first, out);
            return;
        }
        let c = self.sheet.word(rec, WORD_C);
        self.eval_part(room, names, c, out, whole);
        hold_leaves(self.sheet, first, out, &mut room.held);
        read_leaves(self.sheet, first, out);
    }
}
