//! Trials: another base window for a while. However a trial ends, the former window is put back.
ghost use Rattle.std.specs.Prelude.{◌≡◌};
ghost use Rattle.response.specs.Settings.{with_base};
ghost use Rattle.response.specs.Trials.{Tried, both_of};
ghost use Rattle.std.specs.Result.{result_or};

use crate::base::BaseWindow;
use crate::settings::Settings;
use crate::task::Task;
use recording::refusal::Refusal;
use std::mem;

/// A trial of a base window. It holds the settings until it is dropped, and then puts the former
/// window back.
pub struct Trial<'a> {
    settings: &'a mut Settings,
    former: BaseWindow,
}

impl<'a> Trial<'a> {
    /// Begins a trial of the window.
    pub fn begin(settings: &'a mut Settings, window: BaseWindow) -> Trial<'a>
        ensures holds_the_settings_lent { result.settings.ghost_name ≡ settings.entry.ghost_name }
        ensures keeps_the_former_window { result.former ≡ settings.old.base }
        ensures settings_with_the_new_window { result.settings.now ≡ with_base settings.old window }
    {
        let former = mem::replace(&mut settings.base, window);
        Trial { settings, former }
    }

    /// The settings, with the window that is tried.
    pub fn settings(&self) -> &Settings
        ensures settings_as_the_trial_has_them { result.now ≡ self.now.settings.now }
    {
        &*self.settings
    }

    /// What a task gives in a trial inside this one, from `begin` to `end` in ms before the
    /// disturbance time; this trial's window is in place again afterwards. Refusal 17 outside the
    /// limits.
    pub fn tried_inside<T: Task>(
        &mut self,
        begin: u32,
        end: u32,
        task: &T,
    ) -> Result<T::Answer, Refusal>
        ensures holds_the_same_settings { self.new.settings.ghost_name ≡ self.old.settings.ghost_name }
        ensures settings_as_before { self.new.settings.now ≡ self.old.settings.now }
        ensures former_window_as_before { self.new.former ≡ self.old.former }
        ensures answered_with_the_trial_window_or_refused { Tried
            (T.Task.gives task.now) self.old.settings.now begin end result }
    {
        self.settings.tried(begin, end, task)
    }
}

impl Drop for Trial<'_> {
    fn drop(self)
        ensures former_window_put_back { self.exit.0.now ≡ with_base self.entry.settings.now self.entry.former }
    {
        let Trial { settings, former } = self;
        settings.base = former;
    }
}

// Each of these calls leaves the settings as they were.
impl Settings {
    /// What a task gives in a trial of the window.
    pub fn in_trial<T: Task>(&mut self, window: BaseWindow, task: &T) -> Result<T::Answer, Refusal>
        ensures settings_as_before { self.new ≡ self.old }
        ensures answered_with_the_trial_window { result ≡ T.Task.gives task.now (with_base self.old window) }
    {
        let trial = Trial::begin(self, window);
        task.run(trial.settings())
    }

    /// What a task gives in a trial of the window from `begin` to `end`, in ms before the
    /// disturbance time. Refusal 17, without a trial, outside the limits.
    pub fn tried<T: Task>(&mut self, begin: u32, end: u32, task: &T) -> Result<T::Answer, Refusal>
        ensures settings_as_before { self.new ≡ self.old }
        ensures answered_with_the_trial_window_or_refused { Tried (T.Task.gives task.now) self.old begin end result }
    {
        let window = BaseWindow::new(begin, end)?;
        self.in_trial(window, task)
    }

    /// What a task gives in a trial of the first window, or of the second if the first is refused.
    pub fn first_accepted<T: Task>(
        &mut self,
        first: BaseWindow,
        second: BaseWindow,
        task: &T,
    ) -> Result<T::Answer, Refusal>
        ensures settings_as_before { self.new ≡ self.old }
        ensures answered_with_the_first_window_or_the_second { result ≡ result_or
            (T.Task.gives task.now (with_base self.old first))
            (T.Task.gives task.now (with_base self.old second)) }
    {
        // A match, since the closure of `or_else` would hold the settings.
        match self.in_trial(first, task) {
            Err(_) => self.in_trial(second, task),
            accepted => accepted,
        }
    }

    /// What a task gives in a trial inside a trial, and then in the outer trial, whose window is in
    /// place again. The first refusal ends both.
    pub fn both_nested<T: Task>(
        &mut self,
        inner: BaseWindow,
        outer: BaseWindow,
        task: &T,
    ) -> Result<(T::Answer, T::Answer), Refusal>
        ensures settings_as_before { self.new ≡ self.old }
        ensures answered_with_both_windows_or_the_first_refusal { result ≡ both_of
            (T.Task.gives task.now (with_base self.old inner))
            (T.Task.gives task.now (with_base self.old outer)) }
    {
        let trial = Trial::begin(self, outer);
        let within = trial.settings.in_trial(inner, task)?;
        let after = task.run(trial.settings())?;
        Ok((within, after))
    }
}
