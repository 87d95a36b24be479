// What rules and goals are made of, as text.
use pages::page::Page;
use parse::few::Few;
use parse::number::Variable;
use parse::tree::{Alternative, Asking, Comparison, Item, Mention, Term};
use std::alloc::AllocError;
use std::fmt::Display;
use words::name::Name;

// A page, and the names of the variables that are written on it. A name may be of any bytes, which no text prints: so what holds names is
// written to the page, and the rest printed.
#[derive(Drop)]
pub struct Named<'a> {
    pub page: &'a mut Page,
    pub names: &'a [Name],
}

impl Named<'_> {
    fn variable(&mut self, v: Variable) -> Result<(), AllocError> {
        match self.names.get(usize::from(v.index)) {
            Some(name) => self.page.name(name),
            None => self.page.text("_"),
        }
    }

    fn term(&mut self, term: Term) -> Result<(), AllocError> {
        match term {
            Term::Number(n) => write!(self.page, "{}", n.value),
            Term::Cell(cell) => write!(self.page, "#{}", cell.index),
            Term::Variable(v) => self.variable(v),
            Term::Sum(v, n) => {
                self.variable(v)?;
                write!(self.page, "{:+}", n.value)
            }
        }
    }

    fn fact(&mut self, fact: &Mention) -> Result<(), AllocError> {
        self.page.name(&fact.name)?;
        let mut arguments = Vec::new(self.page.heap);
        fact.arguments.append_to(&mut arguments)?;
        let Some((first, others)) = arguments.split_first() else {
            return Ok(());
        };
        self.page.text("(")?;
        self.term(*first)?;
        for argument in others {
            self.page.text(",")?;
            self.term(*argument)?;
        }
        self.page.text(")")
    }

    fn comparison<R: Display>(&mut self, comparison: &Comparison<R>) -> Result<(), AllocError> {
        self.term(comparison.left)?;
        write!(self.page, " {} ", comparison.relation)?;
        self.term(comparison.right)
    }

    pub fn item(&mut self, item: &Item<Mention>) -> Result<(), AllocError> {
        match item {
            Item::Add(fact) => self.fact(fact),
            Item::Tell(tell) => self.comparison(tell),
            Item::Fail => self.page.text("fail"),
        }
    }

    pub fn alternative(
        &mut self,
        alternative: &Alternative<Vec<Item<Mention>>>,
    ) -> Result<(), AllocError> {
        let weight = alternative.weight.value;
        write!(self.page, "  alternative {weight}: ")?;
        let Some((first, others)) = alternative.items.split_first() else {
            return self.page.text("true\n");
        };
        self.item(first)?;
        for item in others {
            self.page.text(", ")?;
            self.item(item)?;
        }
        self.page.text("\n")
    }

    // The heads of one kind, each on a line.
    pub fn heads(&mut self, kind: &str, heads: Few<Mention>) -> Result<(), AllocError> {
        let mut all = Vec::new(self.page.heap);
        heads.append_to(&mut all)?;
        for head in all.iter() {
            self.page.text(kind)?;
            self.fact(head)?;
            self.page.text("\n")?;
        }
        Ok(())
    }

    pub fn guard(&mut self, guard: &[Asking]) -> Result<(), AllocError> {
        for asked in guard {
            self.page.text("  asks ")?;
            self.comparison(asked)?;
            self.page.text("\n")?;
        }
        Ok(())
    }
}
