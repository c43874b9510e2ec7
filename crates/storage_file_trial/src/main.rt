// Performs fixed lists of calls on a storage over a file in the working folder, which is to be empty.
#![tactic(auto)]

mod trial;

use std::{env, io};
use trial::Trial;

// A file is written. What was added and not synced is lost as the process ends.
fn write(trial: &mut Trial) {
    trial.length();
    trial.append(&[1, 2, 3]);
    trial.append(&[4, 5]);
    trial.send(1);
    trial.sync();
    trial.send(1);
    trial.sync_folder();
    trial.send(1);
    trial.length();
    trial.read(0, 64);
    trial.read(1, 3);
    trial.read(9, 1);
    trial.append(&[6]);
    trial.length();
}

// It is found again, and its last byte cut off.
fn cut_back(trial: &mut Trial) {
    trial.length();
    trial.cut_back(9);
    trial.cut_back(4);
    trial.sync();
    trial.sync_folder();
    trial.cut_back(3);
    trial.read(0, 64);
    trial.append(&[7]);
    trial.sync();
    trial.read(0, 64);
}

// Another file takes its place, and is added to.
fn rename(trial: &mut Trial) {
    trial.sync();
    trial.write_beside(&[8]);
    trial.rename();
    trial.clear_beside();
    trial.leave_beside();
    trial.write_beside(&[8]);
    trial.clear_beside();
    trial.write_beside(&[8, 9]);
    trial.write_beside(&[10]);
    trial.sync_beside();
    trial.rename();
    trial.sync();
    trial.sync_folder();
    trial.read(0, 64);
    trial.append(&[11]);
    trial.sync();
    trial.read(0, 64);
}

// Parts of it are set aside; something beside is removed; an empty file takes its place.
fn set_aside(trial: &mut Trial) {
    trial.set_aside(2);
    trial.set_aside(3);
    trial.read(0, 64);
    trial.leave_beside();
    trial.clear_beside();
    trial.clear_beside();
    trial.sync_beside();
    trial.rename();
    trial.sync_folder();
    trial.length();
}

// Calls of which one may be made to fail from outside.
fn failing(trial: &mut Trial) {
    trial.append(&[1, 2, 3]);
    trial.sync();
    trial.append(&[4, 5]);
    trial.sync();
    trial.read(0, 64);
    trial.sync();
    trial.clear_beside();
    trial.write_beside(&[1, 2, 3, 4, 5]);
    trial.sync_beside();
    trial.rename();
    trial.sync();
    trial.sync_folder();
    trial.send(1);
    trial.read(0, 64);
}

fn all(rt: &HostRuntime) -> io::Result<()> {
    write(&mut Trial::open(rt)?);
    cut_back(&mut Trial::open(rt)?);
    rename(&mut Trial::open(rt)?);
    set_aside(&mut Trial::open(rt)?);
    Ok(())
}

fn main(rt: HostRuntime) -> io::Result<()> {
    if env::args(&rt)?.nth(1).is_none() {
        return all(&rt);
    }
    match Trial::open(&rt) {
        Ok(mut trial) => {
            failing(&mut trial);
            Ok(())
        }
        Err(_) => println!(rt; "open: failed"),
    }
}
