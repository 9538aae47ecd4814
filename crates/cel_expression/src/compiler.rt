ghost use Rattle.std.specs.Prelude.{◌≡◌, ◌+◌, ◌<◌, List, [], ◌∷◌, ◌++◌, length, IfOk, OnOk, Some};
ghost use Rattle.cel_value.specs.declared.cel_type.CelType.{CelType};
ghost use Rattle.cel_value.specs.declared.value.Value as value;
ghost use Rattle.cel_code.specs.declared.image.Image.{Image};
ghost use Rattle.cel_check.specs.Meaning.{IsForm, type_of};
ghost use Rattle.cel_value.specs.Turns.{by_turns};
ghost use Rattle.cel_code.specs.LoopNumbers.{loop_number as number_of_loop};
ghost use Rattle.cel_expression.specs.Placed.{with_instr, patched, Interns, Emits, EmitsEach};
ghost use Rattle.cel_check.specs.declared.tree.Form.TheVariants as form;
ghost use Rattle.cel_code.specs.declared.instr.Instr.TheVariants as instr;
ghost use Rattle.cel_expression.specs.Compiled.{IsCompiled, joins_at, target};
ghost use Rattle.cel_expression.specs.Drafts.{drafted, Grows, Writes, WritesWithin, WritesEach};
ghost use Rattle.cel_expression.specs.Correct.{Computes, Preserves};
ghost use Rattle.cel_expression.specs.Jumps.{TargetsAreJumps};

use crate::constants::Constants;
use base_containers::{Items, Text};
use cel_check::{Form, Typed, TypedTree};
use cel_code::{Image, Instr, Target, loop_number};
use cel_value::{CelType, Entry, Loop, Value, copy_types};
use std::alloc::{AllocError, Global};
use std::mem;

/// The image of an expression: its run gives the expression's value or error, and charges exactly what the
/// expression costs. Constants are in the order of their first use, each once, and targets in the order of places.
pub fn compile(alloc: Global, typed: &Typed) -> Result<Image, AllocError>
    ensures compiled { IfOk result (λ image. IsCompiled image typed.now.tree typed.now.slots) }
    // No other image is that.
    ensures only { IfOk result (λ image. (other : Image) → IsCompiled other typed.now.tree typed.now.slots → other ≡ image) }
    ensures jumps { IfOk result TargetsAreJumps }
    ensures computes { IfOk result (λ image. Computes image typed.now.tree) }
    ensures slots { IfOk result (λ image. image.slots ≡ typed.now.slots) }
    ensures outcome { IfOk result (λ image. image.result ≡ type_of typed.now.tree) }
    // In every fitting environment the expression has an error or a value of its type.
    ensures preserves { Preserves typed.now.slots typed.now.tree }
{
    let slots = Items::from_vec(copy_types(alloc, typed.slots.as_slice())?);
    let mut draft = Draft::new(alloc);
    draft.emit(typed.tree.get())?;
    draft.put(Instr::End)?;
    let Draft {
        alloc: _,
        constants,
        targets,
        code,
        below: _,
    } = draft;
    Ok(Image {
        slots,
        constants: constants.into_items(),
        targets,
        result: typed.tree.get().cel_type.copy()?,
        declared: None,
        code,
    })
}

/// Code that is being written, and the types of the operand stack where it goes on, the bottom first.
#[derive(Drop)]
struct Draft {
    alloc: Global,
    constants: Constants,
    targets: Items<Target>,
    code: Items<Instr>,
    below: Items<CelType>,
}

/// Whether jumps of an expression go to its end.
fn joins(form: &Form<TypedTree>) -> bool
    ensures { result ≡ joins_at form.now }
{
    matches!(
        form,
        Form::And(..) | Form::Or(..) | Form::Conditional(..) | Form::Loop(..) | Form::MapWhere(..)
    )
}

impl Draft {
    fn new(alloc: Global) -> Draft
        ensures code { drafted result ≡ record { constants = []; instrs = [] } }
        ensures targets { result.targets ≡ [] }
        ensures below { result.below ≡ [] }
    {
        Draft {
            alloc,
            constants: Constants::new(alloc),
            targets: Items::new(alloc),
            code: Items::new(alloc),
            below: Items::new(alloc),
        }
    }

    /// One more instruction.
    fn put(&mut self, instr: Instr) -> Result<(), AllocError>
        ensures code { OnOk result (drafted self.new ≡ with_instr (drafted self.old) instr) }
        ensures grows { OnOk result (Grows self.old self.new 1 [] []) }
    {
        self.code.push(instr)
    }

    /// How many instructions there are.
    fn len(&self) -> usize
        ensures { result ≡ length self.now.code }
    {
        self.code.len()
    }

    /// Another instruction at a place.
    fn patch(&mut self, at: usize, instr: Instr)
        requires { at < length self.old.code }
        ensures code { drafted self.new ≡ patched (drafted self.old) at instr }
        ensures grows { Grows self.old self.new 0 [] [] }
    {
        self.code.set(at, instr);
    }

    /// Begins a loop; where it leads is not known yet. Answers where it begins.
    fn open_loop(&mut self, mode: Loop) -> Result<usize, AllocError>
        ensures code { IfOk result (λ at.
            drafted self.new ≡ with_instr (with_instr (drafted self.old) (instr.Loop (number_of_loop mode) 0)) instr.Item) }
        ensures place { IfOk result (λ at. at ≡ length self.old.code) }
        ensures grows { OnOk result (Grows self.old self.new 2 [] []) }
    {
        let start = self.len();
        let number = loop_number(mode);
        self.put(Instr::Loop(number, 0))?;
        self.put(Instr::Item)?;
        Ok(start)
    }

    /// The loop that begins at a place ends here, and leads to the place after its last instruction.
    fn close_loop(&mut self, start: usize, mode: Loop) -> Result<(), AllocError>
        requires { start < length self.old.code }
        ensures code { OnOk result
            (drafted self.new ≡ patched (with_instr (drafted self.old) instr.Next) start
            (instr.Loop (number_of_loop mode) (length self.old.code + 1))) }
        ensures grows { OnOk result (Grows self.old self.new 1 [] []) }
    {
        self.put(Instr::Next)?;
        let exit = self.len();
        let number = loop_number(mode);
        self.patch(start, Instr::Loop(number, exit));
        Ok(())
    }

    /// The number of a constant, which is added if it is not there.
    fn intern(&mut self, value: &Value) -> Result<usize, AllocError>
        ensures number { IfOk result (λ k. Interns (drafted self.old) (drafted self.new) value.now k) }
        ensures grows { IfOk result (λ k. Grows self.old self.new 0 (value.now ∷ []) []) }
    {
        if let Some(number) = self.constants.number_of(value) {
            return Ok(number);
        }
        let number = self.constants.len();
        self.constants.push(self.alloc, value)?;
        Ok(number)
    }

    /// The number of a constant text, likewise.
    fn intern_text(&mut self, text: &Text) -> Result<usize, AllocError>
        ensures number { IfOk result (λ k. Interns (drafted self.old) (drafted self.new) (value.Text text.now) k) }
        ensures grows { IfOk result (λ k. Grows self.old self.new 0 (value.Text text.now ∷ []) []) }
    {
        self.intern(&Value::Text(text.copy()?))
    }

    /// Leaves so many types where the code goes on.
    fn leave(&mut self, count: usize)
        ensures code { drafted self.new ≡ drafted self.old }
        ensures targets { self.new.targets ≡ self.old.targets }
        ensures below { (below types : List CelType) → self.old.below ≡ below ++ types → count ≡ length below → self.new.below ≡ below }
    {
        while self.below.len() > count {
            self.below.pop();
        }
    }

    /// Jumps arrive at the next instruction, over nothing more on the stack.
    fn arrive(&mut self) -> Result<(), AllocError>
        ensures code { OnOk result (drafted self.new ≡ drafted self.old) }
        ensures grows { OnOk result
            (Grows self.old self.new 0 [] (target (length self.old.code) self.old.below ∷ [])) }
    {
        let types = Items::from_vec(copy_types(self.alloc, self.below.as_slice())?);
        let at = self.len();
        self.targets.push(Target { at, types })
    }

    /// Jumps arrive at the next instruction, with a value of this type on the stack.
    fn arrive_with(&mut self, top: &CelType) -> Result<(), AllocError>
        ensures code { OnOk result (drafted self.new ≡ drafted self.old) }
        ensures grows { OnOk result
            (Grows self.old self.new 0 [] (target (length self.old.code) (self.old.below ++ top.now ∷ []) ∷ [])) }
    {
        let mut types = Items::from_vec(copy_types(self.alloc, self.below.as_slice())?);
        types.push(top.copy()?)?;
        let at = self.len();
        self.targets.push(Target { at, types })
    }

    /// The instructions of an expression, and the target at its end if jumps go there.
    #[cycle(emit)]
    fn emit(&mut self, tree: &TypedTree) -> Result<(), AllocError>
        ensures stands { OnOk result (Emits (drafted self.old) (drafted self.new) tree.now) }
        ensures writes { OnOk result (Writes self.old self.new tree.now self.old.below) }
    {
        self.emit_within(tree)?;
        if joins(&tree.form) {
            return self.arrive_with(&tree.cel_type);
        }
        Ok(())
    }

    /// The instructions of an expression, and the targets before its end.
    #[cycle(emit)]
    fn emit_within(&mut self, tree: &TypedTree) -> Result<(), AllocError>
        ensures stands { OnOk result (Emits (drafted self.old) (drafted self.new) tree.now) }
        ensures writes { OnOk result (WritesWithin self.old self.new tree.now self.old.below) }
    {
        match &tree.form {
            Form::Literal(value) => {
                let number = self.intern(value)?;
                self.put(Instr::Const(number))
            }
            Form::Slot(number) => self.put(Instr::Slot(*number)),
            Form::Local(number) => self.put(Instr::Local(*number)),
            Form::Unary(operator, operand) => {
                self.emit(operand.get())?;
                self.put(Instr::Op(operator.code()))
            }
            Form::Binary(operator, left, right) => {
                self.emit(left.get())?;
                self.emit_over(right.get(), &left.get().cel_type)?;
                self.put(Instr::Op(operator.code()))
            }
            Form::And(left, right) => self.emit_and(tree, left.get(), right.get()),
            Form::Or(left, right) => self.emit_or(tree, left.get(), right.get()),
            Form::Conditional(condition, yes, no) => {
                self.emit_conditional(tree, condition.get(), yes.get(), no.get())
            }
            Form::ListOf(items) => self.emit_list(tree, items),
            Form::MapOf(entries) => self.emit_map(tree, entries),
            Form::WithText(operator, operand, text) => {
                self.emit(operand.get())?;
                let number = self.intern_text(text)?;
                self.put(Instr::WithText(*operator, number))
            }
            Form::Loop(mode, range, body) => self.emit_loop(tree, *mode, range.get(), body.get()),
            Form::MapWhere(range, predicate, transform) => {
                self.emit_map_where(tree, range.get(), predicate.get(), transform.get())
            }
        }
    }

    /// The instructions of both sides of `&&`, and the test between them.
    #[cycle(emit)]
    fn emit_and(
        &mut self,
        tree: &TypedTree,
        left: &TypedTree,
        right: &TypedTree,
    ) -> Result<(), AllocError>
        requires { IsForm tree.now (form.And left.now right.now) }
        ensures stands { OnOk result (Emits (drafted self.old) (drafted self.new) tree.now) }
        ensures writes { OnOk result (WritesWithin self.old self.new tree.now self.old.below) }
    {
        self.emit(left)?;
        let test = self.len();
        self.put(Instr::AndTest(0))?;
        self.emit_over(right, &left.cel_type)?;
        self.put(Instr::And)?;
        self.patch(test, Instr::AndTest(self.len()));
        Ok(())
    }

    /// The instructions of both sides of `||`, and the test between them.
    #[cycle(emit)]
    fn emit_or(
        &mut self,
        tree: &TypedTree,
        left: &TypedTree,
        right: &TypedTree,
    ) -> Result<(), AllocError>
        requires { IsForm tree.now (form.Or left.now right.now) }
        ensures stands { OnOk result (Emits (drafted self.old) (drafted self.new) tree.now) }
        ensures writes { OnOk result (WritesWithin self.old self.new tree.now self.old.below) }
    {
        self.emit(left)?;
        let test = self.len();
        self.put(Instr::OrTest(0))?;
        self.emit_over(right, &left.cel_type)?;
        self.put(Instr::Or)?;
        self.patch(test, Instr::OrTest(self.len()));
        Ok(())
    }

    /// The instructions of a condition and of its branches. The second branch ends where the conditional does, whose
    /// type is the wider, so the target there is not the branch's.
    #[cycle(emit)]
    fn emit_conditional(
        &mut self,
        tree: &TypedTree,
        condition: &TypedTree,
        yes: &TypedTree,
        no: &TypedTree,
    ) -> Result<(), AllocError>
        requires { IsForm tree.now (form.Conditional condition.now yes.now no.now) }
        ensures stands { OnOk result (Emits (drafted self.old) (drafted self.new) tree.now) }
        ensures writes { OnOk result (WritesWithin self.old self.new tree.now self.old.below) }
    {
        self.emit(condition)?;
        let test = self.len();
        self.put(Instr::Cond(0, 0))?;
        self.emit(yes)?;
        let jump = self.len();
        self.put(Instr::Jump(0))?;
        self.arrive()?;
        self.emit_within(no)?;
        let end = self.len();
        self.patch(test, Instr::Cond(jump + 1, end));
        self.patch(jump, Instr::Jump(end));
        Ok(())
    }

    /// The instructions of a range, and of a loop over it.
    #[cycle(emit)]
    fn emit_loop(
        &mut self,
        tree: &TypedTree,
        mode: Loop,
        range: &TypedTree,
        body: &TypedTree,
    ) -> Result<(), AllocError>
        requires { IsForm tree.now (form.Loop mode range.now body.now) }
        ensures stands { OnOk result (Emits (drafted self.old) (drafted self.new) tree.now) }
        ensures writes { OnOk result (WritesWithin self.old self.new tree.now self.old.below) }
    {
        self.emit(range)?;
        let start = self.open_loop(mode)?;
        self.emit_body(body)?;
        self.close_loop(start, mode)
    }

    /// The instructions of a range, and of a `map` over those of its items for which a predicate holds.
    #[cycle(emit)]
    fn emit_map_where(
        &mut self,
        tree: &TypedTree,
        range: &TypedTree,
        predicate: &TypedTree,
        transform: &TypedTree,
    ) -> Result<(), AllocError>
        requires { IsForm tree.now (form.MapWhere range.now predicate.now transform.now) }
        ensures stands { OnOk result (Emits (drafted self.old) (drafted self.new) tree.now) }
        ensures writes { OnOk result (WritesWithin self.old self.new tree.now self.old.below) }
    {
        self.emit(range)?;
        let start = self.open_loop(Loop::Map)?;
        self.emit_body(predicate)?;
        self.put(Instr::When)?;
        self.emit_body(transform)?;
        self.close_loop(start, Loop::Map)
    }

    /// The instructions of what is evaluated for each item of a loop. It is over nothing, since the types of a target
    /// are those above the innermost loop.
    #[cycle(emit)]
    fn emit_body(&mut self, tree: &TypedTree) -> Result<(), AllocError>
        ensures stands { OnOk result (Emits (drafted self.old) (drafted self.new) tree.now) }
        ensures writes { OnOk result (Writes self.old self.new tree.now []) }
    {
        let below = mem::replace(&mut self.below, Items::new(self.alloc));
        let emitted = self.emit(tree);
        self.below = below;
        emitted
    }

    /// The instructions of items, and of their list.
    #[cycle(emit)]
    fn emit_list(&mut self, tree: &TypedTree, items: &Items<TypedTree>) -> Result<(), AllocError>
        requires { IsForm tree.now (form.ListOf items.now) }
        ensures stands { OnOk result (Emits (drafted self.old) (drafted self.new) tree.now) }
        ensures writes { OnOk result (WritesWithin self.old self.new tree.now self.old.below) }
    {
        let below = self.below.len();
        self.emit_each(items.as_slice())?;
        self.leave(below);
        self.put(Instr::List(items.len()))
    }

    /// The instructions of keys and values, and of their map.
    #[cycle(emit)]
    fn emit_map(
        &mut self,
        tree: &TypedTree,
        entries: &Items<Entry<TypedTree>>,
    ) -> Result<(), AllocError>
        requires { IsForm tree.now (form.MapOf entries.now) }
        ensures stands { OnOk result (Emits (drafted self.old) (drafted self.new) tree.now) }
        ensures writes { OnOk result (WritesWithin self.old self.new tree.now self.old.below) }
    {
        let below = self.below.len();
        self.emit_entries(entries.as_slice())?;
        self.leave(below);
        self.put(Instr::Map(entries.len()))
    }

    /// The instructions of keys and values by turns, each over the types of those before it, which stay.
    #[cycle(emit)]
    fn emit_entries(&mut self, entries: &[Entry<TypedTree>]) -> Result<(), AllocError>
        ensures stands { OnOk result (EmitsEach (drafted self.old) (drafted self.new) (by_turns entries.now)) }
        ensures writes { OnOk result (WritesEach self.old self.new (by_turns entries.now)) }
    {
        for entry in entries {
            self.emit(&entry.key)?;
            self.below.push(entry.key.cel_type.copy()?)?;
            self.emit(&entry.value)?;
            self.below.push(entry.value.cel_type.copy()?)?;
        }
        Ok(())
    }

    /// The instructions of expressions one after another, each over the types of those before it, which stay.
    #[cycle(emit)]
    fn emit_each(&mut self, trees: &[TypedTree]) -> Result<(), AllocError>
        ensures stands { OnOk result (EmitsEach (drafted self.old) (drafted self.new) trees.now) }
        ensures writes { OnOk result (WritesEach self.old self.new trees.now) }
    {
        for tree in trees {
            self.emit(tree)?;
            self.below.push(tree.cel_type.copy()?)?;
        }
        Ok(())
    }

    /// The instructions of an expression that is evaluated over an operand of a type.
    #[cycle(emit)]
    fn emit_over(&mut self, tree: &TypedTree, left: &CelType) -> Result<(), AllocError>
        ensures stands { OnOk result (Emits (drafted self.old) (drafted self.new) tree.now) }
        ensures writes { OnOk result (Writes self.old self.new tree.now (self.old.below ++ left.now ∷ [])) }
    {
        self.below.push(left.copy()?)?;
        self.emit(tree)?;
        self.below.pop();
        Ok(())
    }
}
