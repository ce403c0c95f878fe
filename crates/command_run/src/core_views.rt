ghost use Rattle.std.specs.Prelude.{◌≡◌, ◌≤◌, ◌++◌, ◌∷◌, [], IfOk, OnOk, map};
ghost use Rattle.std.specs.Option.{option_copied};
ghost use Rattle.rp_base.specs.Texts.{text_before_zero};
ghost use Rattle.journal.specs.Lines.{transcript};
ghost use Rattle.link_commands.specs.Acts.{IsFitCoreView};
ghost use Rattle.run_log.specs.Logs.{Keeps};
ghost use Rattle.command_run.specs.CoreViews.{core_view_events, memory_event, state_event, table_event, table_events, trace_bytes, trace_event};

use crate::NamedCore;
use crash_recover::Core;
use image_report::table_rows;
use journal::{Event, TableLine};
use link_commands::{CoreView, event};
use rp_base::{Da, Data, Name, NoMemory};
use run_log::RunLog;

impl NamedCore {
    /// Writes what the core shows.
    pub(crate) fn show_core(&self, view: CoreView, log: &mut RunLog) -> Result<(), NoMemory>
        requires { IsFitCoreView view }
        ensures { IfOk result (λ _. Keeps log.old log.new (core_view_events self.now.name self.now.core view)) }
    {
        match view {
            CoreView::State => self.tell_state(log),
            CoreView::Table => self.tell_table(log),
            CoreView::Trace { trace } => self.tell_trace(trace, log),
            CoreView::Mem { da, len } => self.tell_memory(da, len, log),
        }
    }

    /// Writes the state of the core, its users and its incarnation.
    fn tell_state(&self, log: &mut RunLog) -> Result<(), NoMemory>
        ensures { IfOk result (λ _. Keeps log.old log.new (state_event self.now.name self.now.core ∷ [])) }
    {
        let name = self.name;
        let life = self.core.life();
        let (state, users, inc) = (life.state(), life.users(), life.incarnation());
        log.tell(&event!(State, name, [users, inc], state))
    }

    /// Writes the lines of the core's resource table, as it was loaded.
    #[tactic(auto, unfolding(crate::specs::CoreViews::table_events))]
    fn tell_table(&self, log: &mut RunLog) -> Result<(), NoMemory>
        ensures { IfOk result (λ _. Keeps log.old log.new (table_events self.now.name self.now.core)) }
    {
        let name = self.name;
        let Some(loaded) = self.core.loaded() else {
            return log.tell(&Event::NotLoaded { name });
        };
        let rows = table_rows(log.alloc(), &loaded.table, loaded.traces.as_slice())?;
        tell_rows(name, rows.as_slice(), log)
    }

    /// Writes the text of the trace of a number.
    #[tactic(auto, unfolding(crate::specs::CoreViews::trace_event))]
    fn tell_trace(&self, trace: u64, log: &mut RunLog) -> Result<(), NoMemory>
        ensures { IfOk result (λ _. Keeps log.old log.new (trace_event self.now.name self.now.core trace ∷ [])) }
    {
        let name = self.name;
        let Some(bytes) = trace_bytes(&self.core, trace) else {
            return log.tell(&Event::NoTrace { name, trace });
        };
        let text = Data::copy_of(log.alloc(), text_before_zero(bytes))?;
        log.tell(&Event::Trace { name, trace, text })
    }

    /// Writes bytes of the core's memory, where one block holds them all.
    #[tactic(auto, unfolding(crate::specs::CoreViews::memory_event))]
    fn tell_memory(&self, da: Da, len: u32, log: &mut RunLog) -> Result<(), NoMemory>
        requires { 1 ≤ len }
        ensures { IfOk result (λ _. Keeps log.old log.new (memory_event self.now.name self.now.core da len ∷ [])) }
    {
        let name = self.name;
        let Some(bytes) = self.core.memory(da, len) else {
            return log.tell(&event!(Unmapped, name, [len], da));
        };
        let bytes = Data::copy_of(log.alloc(), bytes)?;
        log.tell(&Event::Mem { name, da, bytes })
    }
}

/// Writes lines of a table in their order.
fn tell_rows(name: Name, rows: &[TableLine], log: &mut RunLog) -> Result<(), NoMemory>
    ensures { OnOk result (log.new ≡ record log.old { lines = log.old.lines ++ transcript (map (table_event name) rows.now) }) }
{
    for row in rows {
        log.tell(&Event::Table { name, line: *row })?;
    }
    Ok(())
}

/// The bytes of the trace of a number.
fn trace_bytes(core: &Core, index: u64) -> Option<&[u8]>
    ensures { option_copied result ≡ trace_bytes core.now index }
{
    if index < 65_536 {
        core.trace(index as u16)
    } else {
        None
    }
}

/// The bytes before the first zero, or all of them where there is none.
fn text_before_zero(bytes: &[u8]) -> &[u8]
    ensures { result.now ≡ text_before_zero bytes.now }
{
    let len = bytes.iter().take_while(|byte| **byte != 0).count();
    &bytes[..len]
}
