use std::alloc::{AllocError, Global};

/// Adds the argument.
fn add_arg(alloc: Global, args: &mut Vec<String>, arg: &str) -> Result<(), AllocError> {
    args.push(arg.to_string(alloc)?)?;
    Ok(())
}

/// The arguments of a row, between two of which there is one blank.
pub(crate) fn args_of(alloc: Global, text: &str) -> Result<Vec<String>, AllocError> {
    let mut args = Vec::new(alloc);
    for arg in text.split(' ') {
        add_arg(alloc, &mut args, arg)?;
    }
    Ok(args)
}
