// The programs by name, and their version.
ghost use Rattle.texts.specs.Written.{Adds};

use texts::page::Page;

#[derive(Clone, Copy)]
pub enum Program {
    Exline,
    Exsheet,
    Checklist,
}

pub fn put_program(page: &mut Page<'_>, p: Program)
    ensures { Adds page.old page.new }
{
    match p {
        Program::Exline => page.text(b"exline"),
        Program::Exsheet => page.text(b"exsheet"),
        Program::Checklist => page.text(b"checklist"),
    }
}

// The version that the file VERSION has.
pub fn put_version(page: &mut Page<'_>)
    ensures { Adds page.old page.new }
{
    page.text(b"1.0.0");
}

// The first line of a report: who made it.
pub fn put_maker(page: &mut Page<'_>, p: Program)
    ensures { Adds page.old page.new }
{
    put_program(page, p);
    page.byte(b' ');
    put_version(page);
    page.byte(b'\n');
}
