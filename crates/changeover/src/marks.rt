// What marking finds, as lines.
// Kept: each number as a `Decimal`, since listings have their digits from the crate `digits`, a rule of the project.
use digits::printed::Decimal;
use marking::marks;
use std::io;
use std::io::Write;

// The kept actions of a task file.
pub fn put_kept(out: &mut impl Write, file: &[u8], actions: &[u8]) -> io::Result<()> {
    let count = files::task::actions_in(file);
    for (a, mark) in actions.iter().enumerate().take(count) {
        if *mark == marks::KEPT {
            writeln!(out, "kept {}", Decimal(a as u64))?;
        }
    }
    Ok(())
}

// The relevant facts of a task file; their marks stand by variables.
pub fn put_relevant(out: &mut impl Write, file: &[u8], facts: &[u8]) -> io::Result<()> {
    let mut left = facts;
    for v in 0..files::task::variables_in(file) {
        let size = files::task::size_of(file, v);
        let (values, others) = left.split_at(size.min(left.len()));
        put_values(out, v, values)?;
        left = others;
    }
    Ok(())
}

// The relevant facts of a variable, by the marks of its values.
fn put_values(out: &mut impl Write, variable: usize, facts: &[u8]) -> io::Result<()> {
    let variable = Decimal(variable as u64);
    for (value, mark) in facts.iter().enumerate() {
        let value = Decimal(value as u64);
        match *mark {
            marks::RELEVANT => writeln!(out, "relevant {variable}={value}")?,
            marks::LINKED => writeln!(out, "relevant {variable}={value} linked")?,
            _ => {}
        }
    }
    Ok(())
}
